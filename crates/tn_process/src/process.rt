// One process, and its next step.
ghost use Rattle.std.specs.Prelude.{◌≡◌, ◌+◌, ◌<◌, [], ◌∷◌, IfOk, codes, None, Some};
ghost use Rattle.std.specs.Option.{option_map};
ghost use Rattle.def_term.specs.Tree.{atom, pid_in};
ghost use Rattle.def_term.specs.Atoms.{IsAtomText};
ghost use Rattle.tn_term.specs.Views.{tree_of, mfa_seen};
ghost use Rattle.tn_term.specs.SharedTree.{shared_tree};
ghost use Rattle.tn_flags.specs.Views.{event_of, call_seen};
ghost use Rattle.tn_script.specs.Views.{step_of, functions_of};
ghost use Rattle.def_node.specs.Values.{fit};
ghost use Rattle.def_node.specs.Process as World;
ghost use Rattle.def_node.specs.Process.{next_step, act, mfa_at};
ghost use Rattle.tn_process.specs.Functions.{functions_in};
ghost use Rattle.tn_process.specs.Views.{frame_of, process_seen, events_of, act_of};
ghost use Rattle.tn_process.specs.declared.process.Process.{Process};
ghost use Rattle.tn_process.specs.Templates.{built_in};
ghost use Rattle.tn_process.specs.StepAnswers.{Does, EndsIn, Pops, with_target, with_newest, caller_in};
ghost use Rattle.tn_process.specs.StepAnswers.{returned_in, resumed_in, leaves_in, called_in, enter};
ghost use Rattle.tn_process.specs.StepAnswers.{enters_in, enters_function_in, calls_in, spawns_in};
ghost use Rattle.tn_process.specs.StepAnswers.{sends_in, receives_in, gives_back_in, relinks, relinks_in};
ghost use Rattle.tn_process.specs.StepAnswers.{performs_in, runs_frame_in, run_act, begins_in};

use crate::act::Act;
use crate::context::{Callee, PendingCall, StepContext};
use crate::env::Env;
use crate::function::function_mfa;
use crate::functions::Functions;
use crate::values::pid_in;
use std::alloc::{AllocError, Allocator};
use std::collections::VecDeque;
use tn_flags::{Call, Event, own_arguments, share_arguments};
use tn_script::{Entry, Function, Step, copy_target};
use tn_term::{Atom, Mfa, SharedTerm, Term};

/// How many frames a process may have.
pub(crate) const FRAMES: usize = 64;

/// A call that goes on.
#[derive(Drop)]
pub struct Frame<A: Allocator> {
    pub(crate) function: usize,
    pub(crate) place: usize,
    pub(crate) env: Env<A>,
    pub(crate) target: Option<Atom<A>>,
    /// Whether a catch step called it.
    pub(crate) by_catch: bool,
}

/// A process, the newest of its frames last.
#[derive(Drop)]
pub struct Process<A: Allocator> {
    pub(crate) entry: Option<Entry<A>>,
    pub(crate) frames: Vec<Frame<A>, A>,
    pub(crate) mailbox: VecDeque<SharedTerm<A>, A>,
    pub(crate) signal: Option<Term<A>>,
    pub(crate) links: [bool; 64],
}

/// The process ends with the atom of this text as its reason.
fn ends_with<A: Allocator + Copy>(alloc: A, reason: &str) -> Result<Act<A>, AllocError>
    requires { IsAtomText reason.now }
    ensures { EndsIn result (λ ls. World.exits ls (atom reason.now) []) }
{
    Ok(Act::Exits {
        reason: Term::word(alloc, reason)?,
        events: Vec::new(alloc),
    })
}

/// The process ends, since the step goes past a limit.
pub fn over_limit<A: Allocator + Copy>(alloc: A) -> Result<Act<A>, AllocError>
    ensures { EndsIn result (λ ls. World.exits ls (atom (codes "system_limit")) []) }
{
    ends_with(alloc, "system_limit")
}

/// The function with this number.
pub fn mfa_at<A: Allocator + Copy>(
    alloc: A,
    functions: &[Function<A>],
    number: usize,
) -> Result<Option<Mfa<A>>, AllocError>
    ensures { IfOk result (λ o. option_map mfa_seen o ≡ mfa_at (functions_of functions.now) number) }
{
    match functions.get(number) {
        None => Ok(None),
        Some(function) => Ok(Some(function_mfa(alloc, function)?)),
    }
}

/// The event alone.
fn only<A: Allocator>(alloc: A, event: Event<A>) -> Result<Vec<Event<A>, A>, AllocError>
    ensures { IfOk result (λ es. events_of es ≡ event_of event ∷ []) }
{
    let mut events = Vec::new(alloc);
    events.push(event)?;
    Ok(events)
}

/// The event of a return from a frame of this function at this depth.
fn return_event<A: Allocator + Copy>(
    context: &StepContext<'_, A>,
    function: &Function<A>,
    value: SharedTerm<A>,
    depth: usize,
) -> Result<Vec<Event<A>, A>, AllocError>
    ensures { IfOk result (λ es. events_of es ≡ returned_in context.now function.now (shared_tree value) depth ∷ []) }
{
    let event = Event::Returned {
        pid: context.pid,
        mfa: function_mfa(context.alloc, function)?,
        value,
        depth,
    };
    only(context.alloc, event)
}

/// The act of a link, or of an unlink.
fn link_act<A: Allocator>(other: u32, linked: bool) -> Act<A>
    ensures { (p : Process A) → act_of p result ≡ relinks linked (process_seen p) other }
{
    if linked {
        Act::LinksTo(other)
    } else {
        Act::UnlinksFrom(other)
    }
}

impl<A: Allocator + Copy> Frame<A> {
    /// What the template stands for, where that is within the limits: the pid that it is, if it is one.
    fn fitting_pid(&self, alloc: A, template: &Term<A>) -> Result<Option<Option<u32>>, AllocError>
        ensures { IfOk result (λ o. o ≡ option_map pid_in (fit (built_in self.now template.now))) }
    {
        match self.env.fit(alloc, template)? {
            Some(term) => Ok(Some(pid_in(&term))),
            None => Ok(None),
        }
    }

    /// One step on.
    fn advance(&mut self)
        requires { self.old.place < usize.MAX }
        ensures { frame_of self.new ≡ next_step (frame_of self.old) }
    {
        self.place += 1;
    }

    /// The value goes to the target.
    fn bind(
        &mut self,
        alloc: A,
        target: &Option<Atom<A>>,
        value: SharedTerm<A>,
    ) -> Result<(), AllocError>
        ensures { IfOk result
            (λ _. frame_of self.new ≡ with_target (frame_of self.old) target.now (shared_tree value)) }
    {
        match target {
            Some(name) => self.env.bind(alloc, name, value)?,
            None => {}
        }
        Ok(())
    }
}

impl<A: Allocator + Copy> Process<A> {
    /// The frame is the newest from now on.
    pub(crate) fn push_frame(&mut self, frame: Frame<A>) -> Result<(), AllocError>
        ensures { IfOk result (λ _. process_seen self.new ≡ with_newest (process_seen self.old) (frame_of frame)) }
    {
        self.frames.push(frame)?;
        Ok(())
    }

    /// Takes the newest frame off.
    pub(crate) fn pop_frame(&mut self) -> Option<Frame<A>>
        ensures { Pops self.old self.new result }
    {
        self.frames.pop()
    }

    /// The process goes on with this frame, and its newest message goes to the target.
    fn receive(
        &mut self,
        alloc: A,
        mut frame: Frame<A>,
        target: &Option<Atom<A>>,
    ) -> Result<Act<A>, AllocError>
        requires { frame.place < usize.MAX }
        ensures { Does self.new result (receives_in self.old frame target.now) }
    {
        match self.mailbox.pop_front() {
            None => {
                self.push_frame(frame)?;
                Ok(Act::Waits)
            }
            Some(message) => {
                frame.advance();
                frame.bind(alloc, target, message)?;
                self.push_frame(frame)?;
                Ok(Act::Continues(Vec::new(alloc)))
            }
        }
    }

    /// The step of a send.
    fn send(
        &mut self,
        alloc: A,
        mut frame: Frame<A>,
        to: &Term<A>,
        message: &Term<A>,
    ) -> Result<Act<A>, AllocError>
        requires { frame.place < usize.MAX }
        ensures { Does self.new result (sends_in self.old frame to.now message.now) }
    {
        let Some(to) = frame.fitting_pid(alloc, to)? else {
            return over_limit(alloc);
        };
        let Some(message) = frame.env.fit_shared(alloc, message)? else {
            return over_limit(alloc);
        };
        let Some(to) = to else {
            return ends_with(alloc, "badarg");
        };
        frame.advance();
        self.push_frame(frame)?;
        Ok(Act::Sends { to, message })
    }

    /// The frame is the newest from now on, with the value at the target.
    pub(crate) fn resume(
        &mut self,
        alloc: A,
        mut frame: Frame<A>,
        target: &Option<Atom<A>>,
        value: SharedTerm<A>,
    ) -> Result<(), AllocError>
        ensures { IfOk result (λ _. process_seen self.new ≡ resumed_in self.old frame target.now (shared_tree value)) }
    {
        frame.bind(alloc, target, value)?;
        self.push_frame(frame)?;
        Ok(())
    }

    /// The newest frame has gone, and its value goes to the one beneath.
    fn leave(
        &mut self,
        context: &StepContext<'_, A>,
        function: &Function<A>,
        target: &Option<Atom<A>>,
        value: SharedTerm<A>,
    ) -> Result<Act<A>, AllocError>
        ensures { Does self.new result (leaves_in context.now self.old function.now target.now (shared_tree value)) }
    {
        let depth = self.frames.len() + 1;
        match self.pop_frame() {
            Some(caller) => {
                let result = value.share()?;
                self.resume(context.alloc, caller, target, result)?;
                let events = return_event(context, function, value, depth)?;
                Ok(Act::Continues(events))
            }
            None => {
                let reason = Term::word(context.alloc, "normal")?;
                let events = return_event(context, function, value, depth)?;
                Ok(Act::Exits { reason, events })
            }
        }
    }

    /// The function of the newest frame.
    fn caller(&self, alloc: A, functions: &[Function<A>]) -> Result<Option<Mfa<A>>, AllocError>
        ensures { IfOk result (λ o. option_map mfa_seen o ≡ caller_in functions.now self.now) }
    {
        match self.frames.last() {
            None => Ok(None),
            Some(frame) => Ok(mfa_at(alloc, functions, frame.function)?),
        }
    }

    /// A call over the frames that there are.
    fn enter(
        &mut self,
        context: &StepContext<'_, A>,
        calling: PendingCall<A>,
        number: Option<usize>,
    ) -> Result<Act<A>, AllocError>
        ensures { Does self.new result (enters_in context.now self.old calling number) }
    {
        let Some(number) = number else {
            return ends_with(context.alloc, "undef");
        };
        let Some(function) = context.functions.get(number) else {
            return ends_with(context.alloc, "undef");
        };
        self.enter_function(context, calling, number, function)
    }

    /// What the event of a call over the frames that there are tells of it.
    fn call_event(
        &self,
        context: &StepContext<'_, A>,
        calling: &PendingCall<A>,
        function: &Function<A>,
    ) -> Result<Call<A>, AllocError>
        ensures { IfOk result (λ c. call_seen c ≡ called_in context.now self.now calling.now function.now) }
    {
        Ok(Call {
            mfa: function_mfa(context.alloc, function)?,
            args: share_arguments(context.alloc, &calling.args)?,
            named: calling.named,
            exported: function.exported,
            caller: self.caller(context.alloc, context.functions)?,
            depth: self.frames.len() + 1,
        })
    }

    /// The frame of a call is the newest from now on, and no entry call is due.
    fn push_callee(
        &mut self,
        context: &StepContext<'_, A>,
        calling: PendingCall<A>,
        number: usize,
        function: &Function<A>,
    ) -> Result<(), AllocError>
        ensures { IfOk result (λ _. process_seen self.new ≡ enter context.now self.old calling number function.now) }
    {
        let names = context.lookup.frame_names(number);
        let params = &function.params;
        let env = Env::for_call(context.alloc, context.pid, names, params, calling.args)?;
        let target = calling.target;
        let by_catch = calling.by_catch;
        self.push_frame(Frame {
            function: number,
            place: 0,
            env,
            target,
            by_catch,
        })?;
        self.entry = None;
        Ok(())
    }

    /// A call of the function with this number over the frames that there are.
    fn enter_function(
        &mut self,
        context: &StepContext<'_, A>,
        calling: PendingCall<A>,
        number: usize,
        function: &Function<A>,
    ) -> Result<Act<A>, AllocError>
        ensures { Does self.new result (enters_function_in context.now self.old calling number function.now) }
    {
        if self.frames.len() >= FRAMES {
            return over_limit(context.alloc);
        }
        let call = self.call_event(context, &calling, function)?;
        self.push_callee(context, calling, number, function)?;
        let pid = context.pid;
        let events = only(context.alloc, Event::Called { pid, call })?;
        Ok(Act::Continues(events))
    }

    /// The step of a call.
    fn call(
        &mut self,
        context: &StepContext<'_, A>,
        mut frame: Frame<A>,
        callee: &Callee<'_, A>,
    ) -> Result<Act<A>, AllocError>
        requires { frame.place < usize.MAX }
        ensures { Does self.new result (calls_in context.now self.old frame callee.now) }
    {
        let templates = &callee.templates.terms;
        let Some(args) = frame.env.fit_all_shared(context.alloc, templates)? else {
            return over_limit(context.alloc);
        };
        let number = context.find(callee.home.text(), callee.name.text(), args.len());
        let target = copy_target(context.alloc, callee.target)?;
        frame.advance();
        self.push_frame(frame)?;
        let calling = PendingCall {
            target,
            named: callee.named,
            by_catch: callee.by_catch,
            args,
        };
        self.enter(context, calling, number)
    }

    /// The step of a return.
    fn give_back(
        &mut self,
        context: &StepContext<'_, A>,
        function: &Function<A>,
        frame: Frame<A>,
        template: &Term<A>,
    ) -> Result<Act<A>, AllocError>
        ensures { Does self.new result (gives_back_in context.now self.old function.now frame template.now) }
    {
        let Some(value) = frame.env.fit_shared(context.alloc, template)? else {
            return over_limit(context.alloc);
        };
        self.leave(context, function, &frame.target, value)
    }

    /// The step of a link, or of an unlink.
    fn relink(
        &mut self,
        alloc: A,
        mut frame: Frame<A>,
        template: &Term<A>,
        linked: bool,
    ) -> Result<Act<A>, AllocError>
        requires { frame.place < usize.MAX }
        ensures { Does self.new result (relinks_in linked self.old frame template.now) }
    {
        let Some(other) = frame.fitting_pid(alloc, template)? else {
            return over_limit(alloc);
        };
        let Some(other) = other else {
            return ends_with(alloc, "badarg");
        };
        frame.advance();
        self.push_frame(frame)?;
        Ok(link_act(other, linked))
    }

    /// The step of a spawn.
    fn spawn(
        &mut self,
        context: &StepContext<'_, A>,
        mut frame: Frame<A>,
        callee: &Callee<'_, A>,
    ) -> Result<Act<A>, AllocError>
        requires { frame.place < usize.MAX }
        ensures { Does self.new result (spawns_in context.now self.old frame callee.now) }
    {
        let Some(args) = frame.env.fitting_all(context.alloc, callee.templates)? else {
            return over_limit(context.alloc);
        };
        let Some(child) = context.child else {
            return over_limit(context.alloc);
        };
        frame.advance();
        let pid = SharedTerm::new(context.alloc, Term::Pid(child))?;
        frame.bind(context.alloc, callee.target, pid)?;
        self.push_frame(frame)?;
        let entry = Entry {
            module: callee.home.copy_into(context.alloc)?,
            name: callee.name.copy_into(context.alloc)?,
            args,
        };
        Ok(Act::Spawns { child, entry })
    }

    /// The step of this function, of which the frame is.
    fn perform(
        &mut self,
        context: &StepContext<'_, A>,
        function: &Function<A>,
        frame: Frame<A>,
        step: &Step<A>,
    ) -> Result<Act<A>, AllocError>
        requires { frame.place < usize.MAX }
        ensures { Does self.new result (performs_in context.now self.old function.now frame (Some (step_of step.now))) }
    {
        match step {
            Step::Send { to, message } => self.send(context.alloc, frame, to, message),
            Step::Receive { target } => self.receive(context.alloc, frame, target),
            Step::CallRemote {
                target,
                module: home,
                name,
                args: templates,
            } => {
                let callee = Callee {
                    target,
                    named: true,
                    by_catch: false,
                    home,
                    name,
                    templates,
                };
                self.call(context, frame, &callee)
            }
            Step::CallLocal {
                target,
                name,
                args: templates,
            } => {
                let callee = Callee {
                    target,
                    named: false,
                    by_catch: false,
                    home: &function.module,
                    name,
                    templates,
                };
                self.call(context, frame, &callee)
            }
            Step::Catch {
                target,
                module: home,
                name,
                args: templates,
            } => {
                let callee = Callee {
                    target,
                    named: true,
                    by_catch: true,
                    home,
                    name,
                    templates,
                };
                self.call(context, frame, &callee)
            }
            Step::Spawn {
                target,
                module: home,
                name,
                args: templates,
            } => {
                let callee = Callee {
                    target,
                    named: true,
                    by_catch: false,
                    home,
                    name,
                    templates,
                };
                self.spawn(context, frame, &callee)
            }
            Step::Link(other) => self.relink(context.alloc, frame, other, true),
            Step::Unlink(other) => self.relink(context.alloc, frame, other, false),
            Step::Return(value) => self.give_back(context, function, frame, value),
            Step::Raise { class, value } => self.raise(context, frame, *class, value),
        }
    }

    /// The next step of the newest frame, which has been taken off.
    fn run_frame(
        &mut self,
        context: &StepContext<'_, A>,
        function: &Function<A>,
        frame: Frame<A>,
    ) -> Result<Act<A>, AllocError>
        ensures { Does self.new result (runs_frame_in context.now self.old function.now frame) }
    {
        match function.steps.get(frame.place) {
            None => {
                let value = SharedTerm::new(context.alloc, Term::word(context.alloc, "ok")?)?;
                self.leave(context, function, &frame.target, value)
            }
            Some(step) => self.perform(context, function, frame, step),
        }
    }

    /// The next step of the newest frame.
    fn run(&mut self, context: &StepContext<'_, A>) -> Result<Act<A>, AllocError>
        ensures { Does self.new result (run_act context.now self.old) }
    {
        let frame = match self.pop_frame() {
            Some(frame) => frame,
            None => return Ok(Act::Waits),
        };
        match context.functions.get(frame.function) {
            None => {
                self.push_frame(frame)?;
                Ok(Act::Waits)
            }
            Some(function) => self.run_frame(context, function, frame),
        }
    }

    /// The entry call.
    fn begin(&mut self, context: &StepContext<'_, A>, entry: Entry<A>) -> Result<Act<A>, AllocError>
        ensures { Does self.new result (begins_in context.now self.old entry) }
    {
        let count = entry.args.terms.len();
        let number = context.find(entry.module.text(), entry.name.text(), count);
        let calling = PendingCall {
            target: None,
            named: true,
            by_catch: false,
            args: own_arguments(context.alloc, entry.args.terms)?,
        };
        self.enter(context, calling, number)
    }

    /// The next step of the process with this pid. `child` is the pid that a spawn would give.
    pub fn act(
        &mut self,
        alloc: A,
        functions: &Functions<A>,
        pid: u32,
        child: Option<u32>,
    ) -> Result<Act<A>, AllocError>
        ensures { Does self.new result (act (functions_in functions.now) pid child (process_seen self.old)) }
    {
        if let Some(reason) = self.signal.take() {
            return Ok(Act::Exits {
                reason,
                events: Vec::new(alloc),
            });
        }
        let context = StepContext {
            alloc,
            functions: functions.list.as_slice(),
            lookup: &*functions.lookup,
            pid,
            child,
        };
        match self.entry.take() {
            Some(entry) => self.begin(&context, entry),
            None => self.run(&context),
        }
    }
}
