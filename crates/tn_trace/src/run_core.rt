// The core of a run.
ghost use Rattle.tn_trace.specs.Advances.{Advances};

use crate::item::{Answer, StepFault};
use crate::journal::JOURNAL;
use crate::recorder::Recorder;
use crate::run::{PickOutcome, Run};
use crate::sinks::Terms;
use std::alloc::{AllocError, Allocator};
use std::marker::Model;
use tn_program::{Program, Sessions};
use tn_text::WrittenTerm;

/// A program, and its node, sessions, listings, replies and journal after the picks that moved. It has
/// none of these but the program once it was refused memory: it is spent.
#[derive(Drop)]
pub struct Core<A: Allocator> {
    program: Program<A>,
    run: Option<Run<A, Recorder<A, Terms<A>>>>,
}

/// One more pick of a run that keeps terms.
fn advance<A: Allocator + Copy>(
    run: &mut Run<A, Recorder<A, Terms<A>>>,
    program: &Program<A>,
    pick: u32,
) -> Result<Answer<A>, StepFault>
    ensures { Advances program.now pick run.old run.new result }
{
    let mut items = Vec::new(run.observer.alloc);
    match run.step(program, pick, &mut items) {
        Ok(PickOutcome::Moved) => Ok(Answer::Moved { items }),
        Ok(PickOutcome::Idle) => Ok(Answer::Idle),
        Ok(PickOutcome::Full) => Err(StepFault::LimitReached),
        Err(_) => Err(StepFault::OutOfMemory),
    }
}

impl<A: Allocator> Model for Core<A> {
    ghost use Rattle.std.specs.Prelude.{IfSome};
    ghost use Rattle.std.specs.Option.{option_map};
    ghost use Rattle.tn_program.specs.Views.{program_of};
    ghost use Rattle.tn_trace.specs.Cores.{CoreValue, core_code, IsOwnRun};

    ghost Value = { CoreValue };

    ghost coded = { core_code };

    ghost view = { λ c. record { program = program_of c.program; journal = option_map (λ r. r.journal.items) c.run } };

    ghost invariant = { λ c. IfSome c.run (IsOwnRun c.program) };
}

impl<A: Allocator + Copy> Core<A> {
    ghost use Rattle.std.specs.Prelude.{◌≡◌, [], None, map, Err, IfOk, IfSome};
    ghost use Rattle.std.specs.Result.{IsOkAnd};
    ghost use Rattle.def_script.specs.Script.{creations};
    ghost use Rattle.def_run.specs.Listing.{replies};
    ghost use Rattle.tn_text.specs.WrittenTrees.{written_tree};
    ghost use Rattle.tn_program.specs.Views.{program_of};
    ghost use Rattle.tn_trace.specs.Cores.{core_of, IsStepOf, Lists};

    /// The core of the program and the empty journal.
    pub fn new(alloc: A, program: Program<A>) -> Result<Core<A>, AllocError>
        ensures { IfOk result (λ c. c ≡ core_of (program_of program) []) }
    {
        let recorder = Recorder::new(alloc, &program)?;
        let run = Run::new(alloc, &program, recorder, JOURNAL)?;
        Ok(Core {
            program,
            run: Some(run),
        })
    }

    /// The program, also of a core that is spent.
    pub fn program(&self) -> &Program<A>
        ensures { program_of result.now ≡ self.now.program }
    {
        &self.program
    }

    /// The name and the tracer of each session, in the control list's order, also of a core that is spent. It
    /// takes no memory.
    pub fn sessions(&self) -> Sessions<'_, A>
        ensures { result ≡ creations self.now.program.commands }
    {
        self.program.sessions()
    }

    /// One more pick.
    ///
    /// # Errors
    ///
    /// Spent after a step that was refused memory; else LimitReached where the journal is full; else
    /// OutOfMemory where memory was refused: the core is spent.
    pub fn step(&mut self, pick: u32) -> Result<Answer<A>, StepFault>
        ensures step { IfSome self.old.journal (λ picks. IsStepOf self.old.program picks pick self.new result) }
        ensures spent { self.old.journal ≡ None → (result ≡ Err StepFault.Spent) × (self.new ≡ self.old) }
    {
        match &mut self.run {
            None => Err(StepFault::Spent),
            Some(run) => match advance(run, &self.program, pick) {
                Ok(answer) => Ok(answer),
                Err(StepFault::OutOfMemory) => {
                    self.run = None;
                    Err(StepFault::OutOfMemory)
                }
                Err(StepFault::LimitReached) => Err(StepFault::LimitReached),
                Err(StepFault::Spent) => Err(StepFault::Spent),
            },
        }
    }

    /// The picks that moved, in order.
    ///
    /// # Errors
    ///
    /// Spent after a step that was refused memory.
    pub fn journal(&self) -> Result<&[u32], StepFault>
        ensures journal { IfSome self.now.journal (λ picks. IsOkAnd result (λ v. v.now ≡ picks)) }
        ensures spent { self.now.journal ≡ None → result ≡ Err StepFault.Spent }
    {
        match &self.run {
            Some(run) => Ok(&run.journal),
            None => Err(StepFault::Spent),
        }
    }

    /// The replies to the commands that were taken, in order, each beside its text.
    ///
    /// # Errors
    ///
    /// Spent after a step that was refused memory.
    pub fn replies(&self) -> Result<&[WrittenTerm<A>], StepFault>
        ensures replies { IfSome self.now.journal (λ picks.
            IsOkAnd result (λ v. map written_tree v.now ≡ replies self.now.program picks)) }
        ensures spent { self.now.journal ≡ None → result ≡ Err StepFault.Spent }
    {
        match &self.run {
            Some(run) => Ok(&run.observer.replies.terms),
            None => Err(StepFault::Spent),
        }
    }

    /// The messages of the session with this number, from 1, in order, each beside its text; None for another number.
    ///
    /// # Errors
    ///
    /// Spent after a step that was refused memory.
    pub fn listing(&self, session: u32) -> Result<Option<&[WrittenTerm<A>]>, StepFault>
        ensures listing { IfSome self.now.journal (λ picks. IsOkAnd result (Lists self.now.program picks session)) }
        ensures spent { self.now.journal ≡ None → result ≡ Err StepFault.Spent }
    {
        let Some(run) = &self.run else {
            return Err(StepFault::Spent);
        };
        if session == 0 {
            return Ok(None);
        }
        match run.observer.slots.get((session - 1) as usize) {
            Some(slot) => Ok(Some(&slot.kept.terms)),
            None => Ok(None),
        }
    }
}
