// Which picks a run takes.
ghost use Rattle.tn_program.specs.Views.{program_of};
ghost use Rattle.tn_moves.specs.Plans.{IsPlanFor, IsPlanOf};
ghost use Rattle.tn_moves.specs.Schedules.{by_moves};

use crate::directive::Directive;
use crate::plan::Plan;
use crate::text::{MovesFault, directives_of_text};
use std::alloc::Allocator;
use tn_listing::{PicksFault, read_picks};
use tn_program::Program;
use tn_trace::JOURNAL;

/// Which picks a run takes.
#[derive(Clone, Copy)]
pub enum Schedule<'a> {
    /// The picks that the text spells: decimal numbers without leading zeros, each at most
    /// 4,294,967,295, with one space between each two, in at most 1,048,576 bytes. The empty text is no
    /// picks.
    Picks(&'a [u8]),
    /// The picks that the text of moves says, in at most 1,048,576 bytes.
    Moves(&'a [u8]),
    /// The picks of a round: 0, 100, 101, .., 163 again and again, until a pass moves nothing or so many
    /// have moved; a limit past 65,536 counts as that.
    Round(u32),
    /// A pick of the control list for each of its commands, and then those of a round; so many may move in
    /// all, and a limit past 65,536 counts as that.
    ControlFirst(u32),
}

/// The plan of these directives.
fn plan_of<'a, A: Allocator>(
    alloc: A,
    limit: u32,
    directives: &[Directive],
) -> Result<Plan<'a, A>, MovesFault>
    ensures { IsPlanOf limit directives.now result }
{
    let mut copy = Vec::new(alloc);
    match copy.extend_from_slice(directives) {
        Ok(()) => Ok(Plan::Directives {
            limit,
            directives: copy,
        }),
        Err(_) => Err(MovesFault::OutOfMemory),
    }
}

/// The plan of the directives of a text of moves, in a run of the program.
fn plan_of_text<'a, A: Allocator + Copy>(
    alloc: A,
    program: &Program<A>,
    text: &[u8],
) -> Result<Plan<'a, A>, MovesFault>
    ensures { IsPlanFor (by_moves text.now) (program_of program.now) result }
{
    match directives_of_text(alloc, program, text) {
        Ok(directives) => Ok(Plan::Directives {
            limit: JOURNAL as u32,
            directives,
        }),
        Err(fault) => Err(fault),
    }
}

impl Schedule<'_> {
    ghost use Rattle.std.specs.Prelude.{IfOk, IsErrOf};
    ghost use Rattle.tn_listing.specs.declared.picks.PicksFault.{PicksFault};
    ghost use Rattle.tn_program.specs.Views.{program_of};
    ghost use Rattle.tn_moves.specs.Schedules.{HasPicks, IsSpelledBy, schedule_seen};
    ghost use Rattle.tn_moves.specs.Plans.{IsPlanFor};

    /// The picks of a text of picks, which is read before the script; none of another schedule.
    ///
    /// # Errors
    ///
    /// BadPicks where a text of picks spells none; OutOfMemory where memory was refused.
    pub fn picks_of_text<A: Allocator>(&self, alloc: A) -> Result<Vec<u32, A>, PicksFault>
        ensures picks { IfOk result (λ v. IsSpelledBy (schedule_seen self.now) v.items) }
        ensures some { IfOk result (λ v. HasPicks (schedule_seen self.now)) }
        ensures bad { IsErrOf result PicksFault.BadPicks → HasPicks (schedule_seen self.now) → ⊥ }
    {
        match self {
            Schedule::Picks(text) => read_picks(alloc, text),
            Schedule::Moves(_) => Ok(Vec::new(alloc)),
            Schedule::Round(_) => Ok(Vec::new(alloc)),
            Schedule::ControlFirst(_) => Ok(Vec::new(alloc)),
        }
    }

    /// What is taken in a run of the program, with the picks of a text of picks.
    ///
    /// # Errors
    ///
    /// Refused where a text says no moves of the program; OutOfMemory where memory was refused.
    pub fn plan<'p, A: Allocator + Copy>(
        &self,
        alloc: A,
        program: &Program<A>,
        picks: &'p [u32],
    ) -> Result<Plan<'p, A>, MovesFault>
        requires { IsSpelledBy (schedule_seen self.now) picks.now }
        ensures { IsPlanFor (schedule_seen self.now) (program_of program.now) result }
    {
        match self {
            Schedule::Picks(_) => Ok(Plan::Picks(picks)),
            Schedule::Moves(text) => plan_of_text(alloc, program, text),
            Schedule::Round(limit) => plan_of(alloc, *limit, &[Directive::Everybody]),
            Schedule::ControlFirst(limit) => plan_of(
                alloc,
                *limit,
                &[Directive::UntilIdle(0), Directive::Everybody],
            ),
        }
    }
}
