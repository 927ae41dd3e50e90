// What a session makes of an event.
ghost use Rattle.std.specs.Prelude.{◌≡◌, Bool, if◌then◌else◌, List, [], IfOk, IfSome};
ghost use Rattle.std.specs.Option.{option_map};
ghost use Rattle.def_term.specs.Names.{Mfa, word};
ghost use Rattle.def_term.specs.Order.{same};
ghost use Rattle.def_term.specs.Tree.{Tree};
ghost use Rattle.def_script.specs.Program.{Class};
ghost use Rattle.def_spec.specs.Expressions.{Effect as DefinedEffect};
ghost use Rattle.def_node.specs.Event.{received, called, returned, raised, exited};
ghost use Rattle.def_session.specs.Messages as messages;
ghost use Rattle.def_session.specs.Session as session;
ghost use Rattle.def_session.specs.Session.{effects_of_outcome, message_after};
ghost use Rattle.tn_term.specs.Views.{tree_of};
ghost use Rattle.tn_flags.specs.Views.{event_of, call_seen};
ghost use Rattle.tn_guard.specs.Views.{value_seen};
ghost use Rattle.tn_machine.specs.Types.{outcome_seen};
ghost use Rattle.tn_session.specs.Views.{mark_kind_seen, state_seen};
ghost use Rattle.tn_session.specs.EventSteps.{event_result, reported_as_term, event_step, live_event_step};
ghost use Rattle.tn_session.specs.EventSteps.{event_step_by, alive_step, plain_finish};
ghost use Rattle.tn_session.specs.EventSteps.{asks, effects_in, evaluation};
ghost use Rattle.tn_session.specs.EventSteps.{evaluation_by, send_evaluation, on_values};
ghost use Rattle.tn_session.specs.EventSteps.{message_in, decision};

use crate::marks::mark_for;
use crate::message::Message;
use crate::room::{Room, keep};
use crate::setting::setting_for;
use crate::shared_spec::SharedSpec;
use crate::state::{Kind, Phase, State};
use bumpalo::Bump;
use std::alloc::{AllocError, Allocator};
use tn_flags::{Call, Event, Flags, inherit_link, inherit_spawn};
use tn_guard::{AtomConst, ListView, Value, lent_values};
use tn_index::Setting;
use tn_machine::{Context, Effect, Outcome};
use tn_term::Term;

// ---- one event

impl<A: Allocator + Copy> State<A> {
    /// What the session makes of an event: the state afterwards, and at most one message, which borrows from the
    /// event and from the room that it is evaluated in. A destroyed session follows who lives, and reports nothing.
    pub(crate) fn tell<'a>(
        &mut self,
        event: &'a Event<A>,
        room: &'a mut Room<A>,
    ) -> Result<Option<Message<'a, A>>, AllocError>
        ensures reported { IfOk result (λ m. event_step self.old event.now ≡ event_result self.new m) }
        ensures of_event { IfOk result (λ m. IfSome m (λ k. k.event.now ≡ event.now)) }
        ensures functions { self.new.functions ≡ self.old.functions }
    {
        match self.phase {
            Phase::Live => Ok(self.tell_live(event, room)?),
            Phase::Destroyed => {
                self.follow(event);
                Ok(None)
            }
        }
    }

    /// What the session makes of an event, with the message as a term.
    pub(crate) fn event(&mut self, event: &Event<A>) -> Result<Option<Term<A>>, AllocError>
        ensures reported { IfOk result (λ m. event_step self.old event.now ≡ reported_as_term self.new m) }
        ensures functions { self.new.functions ≡ self.old.functions }
    {
        let alloc = self.alloc;
        let mut room = Room::new(alloc);
        match self.tell(event, &mut room)? {
            Some(message) => Ok(Some(message.term(alloc)?)),
            None => Ok(None),
        }
    }

    /// What a live session makes of an event.
    fn tell_live<'a>(
        &mut self,
        event: &'a Event<A>,
        room: &'a mut Room<A>,
    ) -> Result<Option<Message<'a, A>>, AllocError>
        ensures reported { IfOk result (λ m. live_event_step self.old event.now ≡ event_result self.new m) }
        ensures of_event { IfOk result (λ m. IfSome m (λ k. k.event.now ≡ event.now)) }
        ensures functions { self.new.functions ≡ self.old.functions }
    {
        self.inherit(event);
        match self.effects_of(event, room)? {
            Some(effects) => Ok(self.tell_by(event, effects)?),
            None => {
                self.finish(event, None)?;
                Ok(None)
            }
        }
    }

    /// The effects, then the message, then marks.
    fn tell_by<'a>(
        &mut self,
        event: &'a Event<A>,
        effects: Vec<Effect<'a, A>, A>,
    ) -> Result<Option<Message<'a, A>>, AllocError>
        ensures reported { IfOk result (λ m.
            event_step_by effects.entry.items self.old event.now ≡ event_result self.new m) }
        ensures of_event { IfOk result (λ m. IfSome m (λ k. k.event.now ≡ event.now)) }
        ensures functions { self.new.functions ≡ self.old.functions }
    {
        self.affect_all(process_of(event), &effects);
        let mark = mark_for(&effects);
        let message = self.message_after(event, effects);
        self.finish(event, mark)?;
        Ok(message)
    }

    /// A session that was destroyed follows who lives, and nothing else.
    fn follow(&mut self, event: &Event<A>)
        ensures state { state_seen self.new ≡ alive_step (state_seen self.old) (event_of event.now) }
        ensures functions { self.new.functions ≡ self.old.functions }
    {
        match event {
            Event::Spawned { pid, .. } => self.alive.add(*pid),
            Event::Exited { pid, .. } => self.alive.remove(*pid),
            _ => {}
        }
    }

    /// What the child or the partner inherits, before the events `spawned` and `getting_linked`.
    fn inherit(&mut self, event: &Event<A>)
        ensures state { state_seen self.new ≡ session.inherit (state_seen self.old) (event_of event.now) }
        ensures functions { self.new.functions ≡ self.old.functions }
    {
        match event {
            Event::Spawned { pid, parent, .. } => {
                self.alive.add(*pid);
                let (kept, child) = inherit_spawn(self.flags_at(*parent), self.new_process_flags);
                self.set_flags(*parent, kept);
                self.set_flags(*pid, child);
            }
            Event::GettingLinked { pid, other } => {
                let (kept, partner) = inherit_link(self.flags_at(*other), self.flags_at(*pid));
                self.set_flags(*other, kept);
                self.set_flags(*pid, partner);
            }
            _ => {}
        }
    }
}

/// The process that the event is about.
pub(crate) fn process_of<A: Allocator>(event: &Event<A>) -> u32
    ensures { result ≡ messages.process_of (event_of event.now) }
{
    match event {
        Event::Sent { pid, .. }
        | Event::Received { pid, .. }
        | Event::Called { pid, .. }
        | Event::Returned { pid, .. }
        | Event::Raised { pid, .. }
        | Event::Spawn { pid, .. }
        | Event::Spawned { pid, .. }
        | Event::Exited { pid, .. }
        | Event::Linked { pid, .. }
        | Event::Unlinked { pid, .. }
        | Event::GettingLinked { pid, .. }
        | Event::GettingUnlinked { pid, .. } => *pid,
    }
}

// ---- what is evaluated

impl<A: Allocator + Copy> State<A> {
    /// The effects of an event; None where it gives no message.
    fn effects_of<'a>(
        &self,
        event: &'a Event<A>,
        room: &'a mut Room<A>,
    ) -> Result<Option<Vec<Effect<'a, A>, A>>, AllocError>
        ensures { IfOk result (λ r. effects_in r ≡ evaluation self.now (event_of event.now)) }
    {
        match event {
            Event::Sent {
                pid,
                message,
                to,
                ..
            } => Ok(self.evaluated_send(*pid, message.term(), *to, room)?),
            Event::Received {
                pid,
                sender,
                message,
            } => Ok(self.evaluated_receive(*pid, *sender, message.term(), room)?),
            Event::Called { pid, call } => Ok(self.evaluated_call(*pid, call, room)?),
            Event::Returned { pid, depth, .. } => Ok(self.evaluated_return(*pid, *depth)),
            Event::Raised { pid, depth, .. } => Ok(self.evaluated_raise(*pid, *depth)),
            Event::Spawn { pid, .. }
            | Event::Spawned { pid, .. }
            | Event::Exited { pid, .. }
            | Event::Linked { pid, .. }
            | Event::Unlinked { pid, .. }
            | Event::GettingLinked { pid, .. }
            | Event::GettingUnlinked { pid, .. } => Ok(self.plainly(self.flags_at(*pid).procs)),
        }
    }

    /// No effects, where the message is reported.
    fn plainly<'a>(&self, reported: bool) -> Option<Vec<Effect<'a, A>, A>>
        ensures { effects_in result ≡ (if reported then Some [] else None) }
    {
        if reported {
            Some(Vec::new(self.alloc))
        } else {
            None
        }
    }

    /// The effects of a send, by the send setting.
    fn evaluated_send<'a>(
        &self,
        pid: u32,
        message: &'a Term<A>,
        to: u32,
        room: &'a mut Room<A>,
    ) -> Result<Option<Vec<Effect<'a, A>, A>>, AllocError>
        ensures { (b : Bool) → IfOk result (λ r. effects_in r ≡ send_evaluation self.now pid message.now to b) }
    {
        if !self.flags_at(pid).send {
            return Ok(None);
        }
        let list = [Value::Pid(to), Value::Lent(message)];
        Ok(self.evaluated_values(&self.sending, pid, None, &list, room)?)
    }

    /// The effects of a receive, by the receive setting.
    fn evaluated_receive<'a>(
        &self,
        pid: u32,
        sender: u32,
        message: &'a Term<A>,
        room: &'a mut Room<A>,
    ) -> Result<Option<Vec<Effect<'a, A>, A>>, AllocError>
        ensures { IfOk result (λ r. effects_in r ≡ evaluation self.now (received pid sender (tree_of message.now))) }
    {
        if !self.flags_at(pid).receive {
            return Ok(None);
        }
        let list = [
            Value::AtomConst(AtomConst::Node),
            Value::Pid(sender),
            Value::Lent(message),
        ];
        Ok(self.evaluated_values(&self.receiving, pid, None, &list, room)?)
    }

    /// The effects by a setting, on these values; None where it is off, or where no clause of its specification
    /// fires. The values that a specification is evaluated on lie in the room.
    fn evaluated_values<'a>(
        &self,
        setting: &Setting<SharedSpec<A>>,
        self_pid: u32,
        caller: Option<&'a tn_term::Mfa<A>>,
        list: &[Value<'a, A>],
        room: &'a mut Room<A>,
    ) -> Result<Option<Vec<Effect<'a, A>, A>>, AllocError>
        ensures { IfOk result (λ r.
            effects_in r ≡ evaluation_by setting.now (on_values self.now self_pid caller.entry list.now)) }
    {
        match setting {
            Setting::Disabled => Ok(None),
            Setting::Always => Ok(Some(Vec::new(self.alloc))),
            Setting::Specification(shared) => {
                let arena: &'a Bump<A> = &room.arena;
                let list: &'a [Value<'a, A>] = arena.try_alloc_slice_copy(list)?;
                let context = Context {
                    list: ListView::Values(list),
                    self_pid,
                    caller,
                    alive: &self.alive,
                    flags: &self.flags,
                };
                let specification = keep(&mut room.specification, shared.share()?);
                let outcome = specification.outcome(self.alloc, &context, arena)?;
                Ok(matched_effects(outcome))
            }
        }
    }

    /// The effects of a call, by the setting of its function.
    fn evaluated_call<'a>(
        &self,
        pid: u32,
        call: &'a Call<A>,
        room: &'a mut Room<A>,
    ) -> Result<Option<Vec<Effect<'a, A>, A>>, AllocError>
        ensures { IfOk result (λ r. effects_in r ≡ evaluation self.now (called pid (call_seen call.now))) }
    {
        if !self.flags_at(pid).call {
            return Ok(None);
        }
        match setting_for(&self.settings, call) {
            Some(setting) => {
                let args = lent_values(self.alloc, &call.args)?;
                let caller = call.caller.as_ref();
                Ok(self.evaluated_values(setting, pid, caller, args.as_slice(), room)?)
            }
            None => Ok(None),
        }
    }

    /// The effects of a return, where its frame is marked: none.
    fn evaluated_return<'a>(&self, pid: u32, depth: usize) -> Option<Vec<Effect<'a, A>, A>>
        ensures { (f : Mfa) (t : Tree) → effects_in result ≡ evaluation self.now (returned pid f t depth) }
    {
        let reported = self.flags_at(pid).call && self.is_marked(pid, depth);
        self.plainly(reported)
    }

    /// The effects of an exception, where the frame that it leaves is marked for exceptions: none.
    fn evaluated_raise<'a>(&self, pid: u32, depth: usize) -> Option<Vec<Effect<'a, A>, A>>
        ensures { (f : Mfa) (c : Class) (t : Tree) → effects_in result ≡ evaluation self.now (raised pid f c t depth) }
    {
        match self.mark_of(pid, depth) {
            Some(Kind::Exceptions) => self.plainly(self.flags_at(pid).call),
            Some(Kind::Returns) => None,
            None => None,
        }
    }
}

/// The effects of an outcome; None where no clause fires.
fn matched_effects<'a, A: Allocator>(outcome: Outcome<'a, A>) -> Option<Vec<Effect<'a, A>, A>>
    ensures { effects_in result ≡ effects_of_outcome (outcome_seen outcome.entry) }
{
    match outcome {
        Outcome::Matched(effects) => Some(effects),
        Outcome::NoMatch => None,
    }
}

// ---- effects

impl<A: Allocator> State<A> {
    /// The effects, in order, of an event of this process.
    fn affect_all(&mut self, self_pid: u32, effects: &[Effect<'_, A>])
        ensures state { state_seen self.new ≡ session.all_affected self_pid (state_seen self.old) (asks effects.now) }
        ensures functions { self.new.functions ≡ self.old.functions }
    {
        for effect in effects {
            effect.apply_to(&mut self.flags, self_pid);
        }
    }
}

// ---- the message

impl<A: Allocator> State<A> {
    /// The message, after the effects.
    fn message_after<'a>(
        &self,
        event: &'a Event<A>,
        effects: Vec<Effect<'a, A>, A>,
    ) -> Option<Message<'a, A>>
        ensures message { message_in result ≡
            message_after (state_seen self.now) (event_of event.now) (asks effects.entry.items) }
        ensures of_event { IfSome result (λ k. k.event.now ≡ event.now) }
    {
        if self.is_silenced(event) {
            return None;
        }
        let short = self.flags_at(process_of(event)).arity;
        message_by(event, short, last_message(effects))
    }

    /// Whether `silent` inhibits the event's message: that of a call, a return or an exception.
    fn is_silenced(&self, event: &Event<A>) -> bool
        ensures { result ≡ session.is_silenced (state_seen self.now) (event_of event.now) }
    {
        match event {
            Event::Called { pid, .. } | Event::Returned { pid, .. } | Event::Raised { pid, .. } =>
                self.flags_at(*pid).silent,
            _ => false,
        }
    }
}

/// The value of the last `message`, where there is one.
fn last_message<'a, A: Allocator>(mut effects: Vec<Effect<'a, A>, A>) -> Option<Value<'a, A>>
    ensures { option_map value_seen result ≡ messages.last_message (asks effects.entry.items) }
{
    while let Some(effect) = effects.pop() {
        if let Effect::Message(value) = effect {
            return Some(value);
        }
    }
    None
}

/// Whether the value is the atom `false`.
fn is_false<A: Allocator>(value: Value<'_, A>) -> bool
    ensures { result ≡ same (value_seen value.entry) (word "false") }
{
    value.same(Value::<A>::truth(false))
}

/// The message by the last value that an effect gives: `false` suppresses it, `true` or none reports it
/// plain, any other is its last element.
fn message_by<'a, A: Allocator>(
    event: &'a Event<A>,
    short: bool,
    last: Option<Value<'a, A>>,
) -> Option<Message<'a, A>>
    ensures message { message_in result ≡ decision short event.now last.entry }
    ensures of_event { IfSome result (λ k. k.event.now ≡ event.now) }
{
    match last {
        Some(value) => {
            if value.is_true() {
                Some(Message {
                    event,
                    short,
                    last: None,
                })
            } else if is_false(value) {
                None
            } else {
                Some(Message {
                    event,
                    short,
                    last: Some(value),
                })
            }
        }
        None => Some(Message {
            event,
            short,
            last: None,
        }),
    }
}

// ---- marks, and the end of a process

impl<A: Allocator + Copy> State<A> {
    /// A call gets its mark, a frame that a return or an exception leaves loses its own; after an exit the
    /// process's flags and marks are gone.
    fn finish(&mut self, event: &Event<A>, mark: Option<Kind>) -> Result<(), AllocError>
        ensures state { (es : List DefinedEffect) → session.mark_asked es ≡ option_map mark_kind_seen mark →
            IfOk result (λ _. state_seen self.new ≡ session.finish (state_seen self.old) (event_of event.now) es) }
        ensures functions { self.new.functions ≡ self.old.functions }
    {
        match event {
            Event::Called { pid, call } => {
                if let Some(kind) = mark {
                    self.mark(*pid, call.depth, kind)?;
                }
            }
            Event::Returned { pid, depth, .. } | Event::Raised { pid, depth, .. } => {
                self.unmark(*pid, *depth);
            }
            Event::Exited { pid, .. } => self.forget(*pid),
            _ => {}
        }
        Ok(())
    }

    /// The flags and marks of a process that ended are gone.
    fn forget(&mut self, pid: u32)
        ensures state { (t : Tree) → state_seen self.new ≡ plain_finish self.old (exited pid t) }
        ensures functions { self.new.functions ≡ self.old.functions }
    {
        self.alive.remove(pid);
        self.set_flags(pid, Flags::none());
        self.unmark_all(pid);
    }
}
