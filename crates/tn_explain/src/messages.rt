// What is known of a send and of a receive before the session sees it, and what a setting makes of values.
ghost use Rattle.std.specs.Prelude.{◌≡◌, IfOk};
ghost use Rattle.tn_session.specs.Looks.{look_setting};
ghost use Rattle.tn_text.specs.Writes.{Grows};
ghost use Rattle.tn_explain.specs.Evaluations.{Evaluates, AnswersOn};
ghost use Rattle.tn_explain.specs.Events.{EachSend, receive_of};

use crate::clauses::Evaluation;
use crate::line::Lines;
use std::alloc::{AllocError, Allocator};
use tn_action::Context;
use tn_guard::{AtomConst, ListView, Value};
use tn_index::Setting;
use tn_running_node::Actor;
use tn_session::Look;
use tn_spec::Spec;
use tn_term::Term;

impl<A: Allocator + Copy> Lines<'_, A> {
    /// Appends what the send setting makes of a send, or that the process has no flag for it.
    pub(crate) fn put_send<'a>(
        &self,
        look: &Look<'a, A>,
        pid: u32,
        message: &'a Term<A>,
        to: u32,
        out: &mut Vec<u8, A>,
    ) -> Result<Evaluation, AllocError>
        ensures ok { EachSend pid message.now to (λ e. IfOk result (Evaluates self.now look.now e out.old out.new)) }
        ensures grows { Grows out.old.items out.new.items }
    {
        if !look.flags_at(pid).send {
            return self.put_where(false, b"no flag send", out);
        }
        let list = [Value::Pid(to), Value::Lent(message)];
        let actor = Actor { pid, caller: None };
        Ok(self.put_values(look.send_setting(), look, actor, &list, out)?)
    }

    /// Appends what the receive setting makes of a receive, or that the process has no flag for it.
    pub(crate) fn put_receive<'a>(
        &self,
        look: &Look<'a, A>,
        pid: u32,
        sender: u32,
        message: &'a Term<A>,
        out: &mut Vec<u8, A>,
    ) -> Result<Evaluation, AllocError>
        ensures ok { IfOk result (Evaluates self.now look.now (receive_of pid sender message.now) out.old out.new) }
        ensures grows { Grows out.old.items out.new.items }
    {
        if !look.flags_at(pid).receive {
            return self.put_where(false, b"no flag 'receive'", out);
        }
        let list = [
            Value::AtomConst(AtomConst::Node),
            Value::Pid(sender),
            Value::Lent(message),
        ];
        let actor = Actor { pid, caller: None };
        Ok(self.put_values(look.receive_setting(), look, actor, &list, out)?)
    }

    /// Appends what a setting makes of these values.
    pub(crate) fn put_values<'a>(
        &self,
        setting: Setting<&'a Spec<A>>,
        look: &Look<'a, A>,
        actor: Actor<'a, A>,
        list: &'a [Value<'a, A>],
        out: &mut Vec<u8, A>,
    ) -> Result<Evaluation, AllocError>
        ensures ok { IfOk result
            (AnswersOn self.now (look_setting setting.entry) look.now actor.entry list.now out.old out.new) }
        ensures grows { Grows out.old.items out.new.items }
    {
        let context = Context {
            list: ListView::Values(list),
            self_pid: actor.pid,
            caller: actor.caller,
            alive: look.alive(),
            flags: look.flags(),
        };
        self.put_setting(setting, &context, out)
    }
}
