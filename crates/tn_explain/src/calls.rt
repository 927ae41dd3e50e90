// What is known of a call before the session sees it.
ghost use Rattle.std.specs.Prelude.{◌≡◌, ◌++◌, IfOk, OnOk};
ghost use Rattle.def_node.specs.Event.{called};
ghost use Rattle.def_explain.specs.ReasonTexts.{mfa_text};
ghost use Rattle.tn_term.specs.Views.{mfa_seen};
ghost use Rattle.tn_flags.specs.Views.{call_seen};
ghost use Rattle.tn_text.specs.Writes.{Grows};
ghost use Rattle.tn_session.specs.Looks.{look_setting};
ghost use Rattle.tn_explain.specs.Evaluations.{Evaluates, AnswersCall, Refuses};
ghost use Rattle.tn_explain.specs.LineParts.{uncovered_lines};

use crate::clauses::Evaluation;
use crate::line::{Lines, begin};
use std::alloc::{AllocError, Allocator};
use tn_flags::Call;
use tn_guard::lent_values;
use tn_index::Setting;
use tn_running_node::{Actor, concerns};
use tn_session::Look;
use tn_spec::Spec;
use tn_term::{Mfa, Term};
use tn_text::{write_atom, write_term};

/// Appends `M:F/A`.
fn put_function<A: Allocator>(mfa: &Mfa<A>, out: &mut Vec<u8, A>) -> Result<(), AllocError>
    ensures ok { OnOk result (out.new.items ≡ out.old.items ++ mfa_text (mfa_seen mfa.now)) }
    ensures grows { Grows out.old.items out.new.items }
{
    write_atom(&mfa.module, out)?;
    out.push(b':')?;
    write_atom(&mfa.name, out)?;
    out.push(b'/')?;
    write_term(&Term::<A>::Int(i64::from(mfa.arity)), out)
}

impl<A: Allocator + Copy> Lines<'_, A> {
    /// Appends what the setting of its function makes of a call, or why none does.
    pub(crate) fn put_call<'a>(
        &self,
        look: &Look<'a, A>,
        pid: u32,
        call: &'a Call<A>,
        out: &mut Vec<u8, A>,
    ) -> Result<Evaluation, AllocError>
        ensures ok { IfOk result (Evaluates self.now look.now (called pid (call_seen call.now)) out.old out.new) }
        ensures grows { Grows out.old.items out.new.items }
    {
        if !look.flags_at(pid).call {
            return self.put_where(false, b"no flag call", out);
        }
        let Some(newest) = look.newest(call) else {
            return self.put_uncovered(&call.mfa, out);
        };
        if !concerns(&newest, call) {
            let why = b"the setting is global, and the call doesn't name the module";
            return self.put_where(false, why, out);
        }
        self.put_evaluation(newest.setting, look, pid, call, out)
    }

    /// Appends what a setting makes of a call.
    fn put_evaluation<'a>(
        &self,
        setting: Setting<&'a Spec<A>>,
        look: &Look<'a, A>,
        pid: u32,
        call: &'a Call<A>,
        out: &mut Vec<u8, A>,
    ) -> Result<Evaluation, AllocError>
        ensures ok { IfOk result
            (AnswersCall self.now (look_setting setting.entry) look.now pid call.now out.old out.new) }
        ensures grows { Grows out.old.items out.new.items }
    {
        let args = lent_values(self.alloc, &call.args)?;
        let caller = call.caller.as_ref();
        let actor = Actor { pid, caller };
        self.put_values(setting, look, actor, args.as_slice(), out)
    }

    /// Appends that no command covers a function.
    fn put_uncovered(&self, mfa: &Mfa<A>, out: &mut Vec<u8, A>) -> Result<Evaluation, AllocError>
        ensures ok { IfOk result (Refuses self.now (uncovered_lines (mfa_seen mfa.now)) out.old out.new) }
        ensures grows { Grows out.old.items out.new.items }
    {
        begin(self.name, out)?;
        out.extend_from_slice(b"no setting for ")?;
        put_function(mfa, out)?;
        out.push(b'\n')?;
        Ok(Evaluation::Refused)
    }
}
