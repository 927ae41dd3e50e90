// The sessions of a run, which choose its moves.
use crate::choice::MessageQuestion;
use crate::slots::{obey_each, see_each};
use std::alloc::{AllocError, Allocator};
use tn_flags::{Command, Event};
use tn_program::Program;
use tn_script::Function;
use tn_term::Alive;
use tn_trace::{Discard, Slot, absent_sessions, living_after};

/// The sessions of the control list, and who lives.
#[derive(Drop)]
pub struct Choosers<A: Allocator> {
    alloc: A,
    living: Alive,
    slots: Vec<Slot<A, Discard>, A>,
}

impl<A: Allocator + Copy> Choosers<A> {
    ghost use Rattle.std.specs.Prelude.{IfOk};
    ghost use Rattle.def_script.specs.Exports.{exports_of};
    ghost use Rattle.def_run.specs.History.{named_sessions};
    ghost use Rattle.tn_program.specs.Views.{program_of};
    ghost use Rattle.tn_message_choice.specs.Choosers.{AreChoosers, ChooseEvent, ChooseMove, ObeyCommand};

    /// The sessions of a program, before they are created. An error is refused memory.
    pub fn new(alloc: A, program: &Program<A>) -> Result<Choosers<A>, AllocError>
        ensures { let p = program_of program.now in IfOk result (AreChoosers (exports_of p) (named_sessions p)) }
    {
        Ok(Choosers {
            alloc,
            living: Alive::first(program.entries().len()),
            slots: absent_sessions(alloc, program)?,
        })
    }

    /// The sessions see an event: whether one of those that are asked about chooses it.
    fn see_event(
        &mut self,
        question: &MessageQuestion<'_>,
        event: &Event<A>,
    ) -> Result<bool, AllocError>
        ensures { ChooseEvent question.now event.now self.old self.new result }
    {
        let would = question.choice.would_match(self.alloc, event)?;
        let one_chooses = see_each(self.alloc, question, would, &mut self.slots, event)?;
        self.living = living_after(self.living, event);
        Ok(one_chooses)
    }

    /// The sessions see the events of a move, in order: whether one of those that are asked about chooses one of them.
    /// An error is refused memory.
    pub fn see(
        &mut self,
        question: &MessageQuestion<'_>,
        events: &Vec<Event<A>, A>,
    ) -> Result<bool, AllocError>
        ensures { ChooseMove question.now events.now.items self.old self.new result }
    {
        let mut is_chosen = false;
        for event in events {
            let one_chooses = self.see_event(question, event)?;
            is_chosen = is_chosen | one_chooses;
        }
        Ok(is_chosen)
    }

    /// The session that a command names does it. No session chooses the move of a command. An error is refused memory.
    pub fn obey(
        &mut self,
        functions: &[Function<A>],
        command: &Command<A>,
    ) -> Result<(), AllocError>
        ensures { ObeyCommand functions.now command.now self.old self.new result }
    {
        obey_each(self.alloc, &mut self.slots, functions, self.living, command)
    }
}
