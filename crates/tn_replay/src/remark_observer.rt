// Why the commands of a run are refused, match no function or have a trap, as it takes them.
ghost use Rattle.std.specs.Prelude.{◌≡◌, IfOk, map};
ghost use Rattle.std.specs.Option.{option_map};
ghost use Rattle.def_explain.specs.Remarks.{run_reasons, reply_and_reason, has_remarks};
ghost use Rattle.tn_flags.specs.Views.{command_of};
ghost use Rattle.tn_program.specs.Views.{program_of};
ghost use Rattle.tn_remark.specs.TextLines.{texts_seen};
ghost use Rattle.tn_command_reason.specs.CommandReasons.{command_reasons_seen};
ghost use Rattle.tn_replay.specs.RemarkedSessions.{SlotsHaveReason, has_some};

use std::alloc::{AllocError, Allocator};
use tn_command_reason::{CommandReason, absent_reason, command_reason, reason_text};
use tn_flags::{Command, Event};
use tn_node::Node;
use tn_program::Program;
use tn_script::Function;
use tn_trace::{Discard, JOURNAL, JournalEntry, Observer, Recorder, Run, Slot};

/// The sessions of a run whose commands are remarked of.
#[derive(Drop)]
pub(crate) struct RemarkObserver<A: Allocator> {
    pub alloc: A,
    pub recorder: Recorder<A, Discard>,
}

/// Why the session of a command refuses it, matches no function or has a trap by it.
fn reason_among<'a, A: Allocator + Copy>(
    alloc: A,
    slots: &Vec<Slot<A, Discard>, A>,
    functions: &'a [Function<A>],
    command: &'a Command<A>,
) -> Result<Option<CommandReason<'a, A>>, AllocError>
    ensures { IfOk result (λ r.
        SlotsHaveReason functions.now slots.now.items (command_of command.now) (command_reasons_seen r)) }
{
    for place in 0..slots.len() {
        let slot = &slots[place];
        if command.session().text() == slot.name.text() {
            return Ok(command_reason(alloc, &slot.session, functions, command)?);
        }
    }
    Ok(absent_reason(command))
}

impl<A: Allocator + Copy> RemarkObserver<A> {
    ghost use Rattle.std.specs.Prelude.{[], IfOk};
    ghost use Rattle.tn_program.specs.Views.{program_of};
    ghost use Rattle.tn_replay.specs.RemarkedSessions.{HasRemarked};

    /// The sessions of a program before any move.
    fn new(alloc: A, program: &Program<A>) -> Result<RemarkObserver<A>, AllocError>
        ensures { IfOk result (λ c. HasRemarked c (program_of program.now) []) }
    {
        Ok(RemarkObserver {
            alloc,
            recorder: Recorder::new(alloc, program)?,
        })
    }
}

impl<A: Allocator + Copy> Observer<A> for RemarkObserver<A> {
    ghost use Rattle.tn_replay.specs.RemarkedSessions.{HasRemarked, AddsReasons};

    type Output = Vec<Option<Vec<u8, A>>, A>;

    type Sight = ();

    ghost looks = { λ _ _ _ _. Unit {0} };

    ghost sees = { HasRemarked };

    ghost adds = { AddsReasons };

    ghost reaches = { λ _ _. Unit {0} };

    fn look(&self, _node: &Node<A>, _pick: u32) {}

    fn obey(
        &mut self,
        program: &Program<A>,
        entry: JournalEntry,
        command: &Command<A>,
        out: &mut Vec<Option<Vec<u8, A>>, A>,
    ) -> Result<(), AllocError> {
        let functions = program.functions();
        let why = reason_among(self.alloc, &self.recorder.slots, functions, command)?;
        let text = reason_text(self.alloc, why)?;
        let mut given = Vec::new(self.alloc);
        self.recorder.obey(program, entry, command, &mut given)?;
        out.push(text)?;
        Ok(())
    }

    fn see(
        &mut self,
        program: &Program<A>,
        entry: JournalEntry,
        _sight: (),
        events: &Vec<Event<A>, A>,
        _out: &mut Vec<Option<Vec<u8, A>>, A>,
    ) -> Result<(), AllocError> {
        let mut given = Vec::new(self.alloc);
        self.recorder.see(program, entry, (), events, &mut given)?;
        Ok(())
    }

    ghost stays = { λ out. tt };

    ghost reaches_on = { λ first now next a b. tt };
}

/// Of each command of the program's run by these picks, in order, the reply with why it is this one, where the command
/// is refused, matches no function or has a trap.
pub(crate) fn command_texts<A: Allocator + Copy>(
    alloc: A,
    program: &Program<A>,
    picks: &[u32],
) -> Result<Vec<Option<Vec<u8, A>>, A>, AllocError>
    ensures { IfOk result (λ v. texts_seen v.items ≡
        map (option_map reply_and_reason) (run_reasons (program_of program.now) picks.now)) }
{
    let observer = RemarkObserver::new(alloc, program)?;
    let mut run = Run::new(alloc, program, observer, JOURNAL)?;
    let mut texts = Vec::new(alloc);
    run.take_all(program, picks, &mut texts)?;
    Ok(texts)
}

/// Whether one of these is there.
fn has_text<A: Allocator>(texts: &Vec<Option<Vec<u8, A>>, A>) -> bool
    ensures { result ≡ has_some (texts_seen texts.now.items) }
{
    for place in 0..texts.len() {
        if texts[place].is_some() {
            return true;
        }
    }
    false
}

/// Whether a command of the program's run by these picks is refused, matches no function or has a trap.
pub(crate) fn program_has_remarks<A: Allocator + Copy>(
    alloc: A,
    program: &Program<A>,
    picks: &[u32],
) -> Result<bool, AllocError>
    ensures { IfOk result (λ b. b ≡ has_remarks (program_of program.now) picks.now) }
{
    let texts = command_texts(alloc, program, picks)?;
    Ok(has_text(&texts))
}
