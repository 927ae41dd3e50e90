// The move at which a session sends its message of a number, and how many messages it sends.
ghost use Rattle.std.specs.Prelude.{◌≡◌, IfOk, MatchBool};
ghost use Rattle.def_message_choice.specs.MessageNumbers.{move_of_message};
ghost use Rattle.tn_program.specs.Views.{program_of};
ghost use Rattle.tn_moves.specs.Plans.{plan_picks};
ghost use Rattle.tn_message_choice.specs.Counts.{sent_in, IsMessageCount, HasNumber, HasNoNumber};

use crate::count::Count;
use std::alloc::{AllocError, Allocator};
use tn_flags::{Command, Event};
use tn_moves::{Plan, drive};
use tn_node::Node;
use tn_program::Program;
use tn_trace::{JournalEntry, Observer, Recorder, Slot};

/// What counts the messages of the sessions of a run, and finds the move at which the session of a name sends the one
/// of a number.
#[derive(Drop)]
pub(crate) struct MessageFinder<'a, A: Allocator> {
    pub alloc: A,
    pub recorder: Recorder<A, Count>,
    pub session: &'a str,
    pub number: u64,
    pub found: Option<u64>,
}

/// How many messages the session of this name sent; none where there is no such session.
fn sent_by<A: Allocator>(slots: &[Slot<A, Count>], name: &str) -> u64
    ensures { result ≡ sent_in name.now slots.now }
{
    for slot in slots {
        if name == slot.name.text() {
            return slot.kept.sent;
        }
    }
    0
}

/// Whether the message of this number is among so many.
fn reaches(number: u64, sent: u64) -> bool
    ensures { MatchBool result (HasNumber number sent) (HasNoNumber number sent) }
{
    number > 0 && number <= sent
}

impl<'a, A: Allocator + Copy> MessageFinder<'a, A> {
    ghost use Rattle.std.specs.Prelude.{◌≡◌, [], IfOk};
    ghost use Rattle.tn_program.specs.Views.{program_of};
    ghost use Rattle.tn_message_choice.specs.Finders.{HasFound, NotesMove};

    /// What finds the message of this number of the session of this name, before any pick.
    fn new(
        alloc: A,
        program: &Program<A>,
        session: &'a str,
        number: u64,
    ) -> Result<MessageFinder<'a, A>, AllocError>
        ensures found { IfOk result (λ f. HasFound f (program_of program.now) []) }
        ensures session { IfOk result (λ f. f.session ≡ session.entry) }
        ensures number { IfOk result (λ f. f.number ≡ number) }
    {
        Ok(MessageFinder {
            alloc,
            recorder: Recorder::new(alloc, program)?,
            session,
            number,
            found: None,
        })
    }

    /// Keeps the number of a move that was made, where it is the first after which the session has sent so many.
    fn note(&mut self, made: u64)
        ensures found { NotesMove made self.old self.new }
        ensures others { self.new ≡ record self.old { found = self.new.found } }
    {
        if self.found.is_some() {
            return;
        }
        let sent = sent_by(&self.recorder.slots, self.session);
        if reaches(self.number, sent) {
            self.found = Some(made);
        }
    }
}

impl<'a, A: Allocator + Copy> Observer<A> for MessageFinder<'a, A> {
    ghost use Rattle.tn_message_choice.specs.Finders.{HasFound, AsksTheSame};

    type Output = ();

    type Sight = ();

    ghost looks = { λ _ _ _ _. Unit {0} };

    ghost sees = { HasFound };

    ghost adds = { AsksTheSame };

    ghost reaches = { λ _ _. Unit {0} };

    fn look(&self, _node: &Node<A>, _pick: u32) {}

    fn obey(
        &mut self,
        program: &Program<A>,
        entry: JournalEntry,
        command: &Command<A>,
        _out: &mut (),
    ) -> Result<(), AllocError> {
        let mut given = Vec::new(self.alloc);
        self.recorder.obey(program, entry, command, &mut given)?;
        self.note(entry.number);
        Ok(())
    }

    fn see(
        &mut self,
        program: &Program<A>,
        entry: JournalEntry,
        _sight: (),
        events: &Vec<Event<A>, A>,
        _out: &mut (),
    ) -> Result<(), AllocError> {
        let mut given = Vec::new(self.alloc);
        self.recorder.see(program, entry, (), events, &mut given)?;
        self.note(entry.number);
        Ok(())
    }

    ghost stays = { λ out. tt };

    ghost reaches_on = { λ first now next a b. tt };
}

/// The number of the move at which the session of this name sends its message of a number, in the program's run by a
/// plan; None where it sends fewer messages. Both numbers are counted from 1.
///
/// # Errors
///
/// AllocError where memory was refused.
pub fn move_of_message<A: Allocator + Copy>(
    alloc: A,
    program: &Program<A>,
    plan: &Plan<'_, A>,
    session: &str,
    number: u64,
) -> Result<Option<u64>, AllocError>
    ensures { let p = program_of program.now in
        IfOk result (λ m. m ≡ move_of_message session.now number p (plan_picks p plan.now)) }
{
    let finder = MessageFinder::new(alloc, program, session, number)?;
    let run = drive(alloc, program, plan, finder, &mut ())?;
    Ok(run.observer().found)
}

/// How many messages the session of this name sends in the program's run by a plan; None where they are 2^64 - 1 or
/// more.
///
/// # Errors
///
/// AllocError where memory was refused.
pub fn message_count<A: Allocator + Copy>(
    alloc: A,
    program: &Program<A>,
    plan: &Plan<'_, A>,
    session: &str,
) -> Result<Option<u64>, AllocError>
    ensures { let p = program_of program.now in
        IfOk result (IsMessageCount session.now p (plan_picks p plan.now)) }
{
    let recorder = Recorder::<A, Count>::new(alloc, program)?;
    let mut given = Vec::new(alloc);
    let run = drive(alloc, program, plan, recorder, &mut given)?;
    let sent = sent_by(&run.observer().slots, session);
    if sent < u64::MAX {
        Ok(Some(sent))
    } else {
        Ok(None)
    }
}
