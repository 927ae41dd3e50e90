// What makes the rows of a run as it takes its picks.
ghost use Rattle.std.specs.Prelude.{◌≡◌, IfOk, map};
ghost use Rattle.def_picture.specs.Picture.{rows_of};
ghost use Rattle.tn_program.specs.Views.{program_of};
ghost use Rattle.tn_moves.specs.Plans.{plan_picks};
ghost use Rattle.tn_picture.specs.Views.{picture_row_seen};

use crate::label::{command_label, event_label};
use crate::row::Row;
use crate::shape::{Shape, shape_of_event};
use crate::slots::{obey_each, report_each};
use std::alloc::{AllocError, Allocator};
use tn_flags::{Command, Event};
use tn_moves::{Plan, drive};
use tn_node::Node;
use tn_program::Program;
use tn_term::Alive;
use tn_trace::{Discard, JournalEntry, Observer, Slot, absent_sessions, living_after};

/// The sessions of the control list, and who lives.
#[derive(Drop)]
pub(crate) struct Painter<A: Allocator> {
    pub alloc: A,
    pub living: Alive,
    pub slots: Vec<Slot<A, Discard>, A>,
}

impl<A: Allocator + Copy> Painter<A> {
    ghost use Rattle.std.specs.Prelude.{[], IfOk};
    ghost use Rattle.tn_program.specs.Views.{program_of};
    ghost use Rattle.tn_picture.specs.Painters.{HasPainted, PaintsEvent, PaintsEvents, PaintsCommand};

    /// The painter of a program's run before any pick.
    fn new(alloc: A, program: &Program<A>) -> Result<Painter<A>, AllocError>
        ensures { IfOk result (λ c. HasPainted c (program_of program.now) []) }
    {
        Ok(Painter {
            alloc,
            living: Alive::first(program.entries().len()),
            slots: absent_sessions(alloc, program)?,
        })
    }

    /// The sessions see an event of a move, and its row is appended.
    fn put_event(
        &mut self,
        number: u64,
        event: &Event<A>,
        rows: &mut Vec<Row<A>, A>,
    ) -> Result<(), AllocError>
        ensures { PaintsEvent number event.now self.old self.new rows.old rows.new result }
    {
        let mut reports = Vec::new(self.alloc);
        report_each(self.alloc, &mut self.slots, event, &mut reports)?;
        self.living = living_after(self.living, event);
        rows.push(Row {
            move_number: number,
            shape: shape_of_event(event),
            label: event_label(self.alloc, event)?,
            reports,
        })?;
        Ok(())
    }

    /// The sessions see the events of a move, in order, and their rows are appended.
    fn put_events(
        &mut self,
        number: u64,
        events: &Vec<Event<A>, A>,
        rows: &mut Vec<Row<A>, A>,
    ) -> Result<(), AllocError>
        ensures { PaintsEvents number events.now.items self.old self.new rows.old rows.new result }
    {
        for event in events {
            self.put_event(number, event, rows)?;
        }
        Ok(())
    }

    /// The session that a command names does it, and its row is appended.
    fn put_command(
        &mut self,
        number: u64,
        program: &Program<A>,
        command: &Command<A>,
        rows: &mut Vec<Row<A>, A>,
    ) -> Result<(), AllocError>
        ensures { PaintsCommand number (program_of program.now) command.now self.old self.new rows.old rows.new result }
    {
        let functions = program.functions();
        obey_each(self.alloc, &mut self.slots, functions, self.living, command)?;
        rows.push(Row {
            move_number: number,
            shape: Shape::CommandLine,
            label: command_label(self.alloc, command)?,
            reports: Vec::new(self.alloc),
        })?;
        Ok(())
    }
}

impl<A: Allocator + Copy> Observer<A> for Painter<A> {
    ghost use Rattle.tn_picture.specs.Painters.{HasPainted, AddsRows};

    type Output = Vec<Row<A>, A>;

    type Sight = ();

    ghost looks = { λ _ _ _ _. Unit {0} };

    ghost sees = { HasPainted };

    ghost adds = { AddsRows };

    ghost reaches = { λ _ _. Unit {0} };

    fn look(&self, _node: &Node<A>, _pick: u32) {}

    fn obey(
        &mut self,
        program: &Program<A>,
        entry: JournalEntry,
        command: &Command<A>,
        out: &mut Vec<Row<A>, A>,
    ) -> Result<(), AllocError> {
        self.put_command(entry.number, program, command, out)?;
        Ok(())
    }

    fn see(
        &mut self,
        program: &Program<A>,
        entry: JournalEntry,
        _sight: (),
        events: &Vec<Event<A>, A>,
        out: &mut Vec<Row<A>, A>,
    ) -> Result<(), AllocError> {
        self.put_events(entry.number, events, out)?;
        Ok(())
    }

    ghost stays = { λ out. tt };

    ghost reaches_on = { λ first now next a b. tt };
}

/// The rows of the program's run by a plan.
pub(crate) fn rows_of<A: Allocator + Copy>(
    alloc: A,
    program: &Program<A>,
    plan: &Plan<'_, A>,
) -> Result<Vec<Row<A>, A>, AllocError>
    ensures { let p = program_of program.now in
        IfOk result (λ v. map picture_row_seen v.items ≡ rows_of p (plan_picks p plan.now)) }
{
    let painter = Painter::new(alloc, program)?;
    let mut rows = Vec::new(alloc);
    drive(alloc, program, plan, painter, &mut rows)?;
    Ok(rows)
}
