// Texts of moves, and plans.
ghost use Rattle.std.specs.Prelude.{◌≡◌, IfOk};
ghost use Rattle.tn_program.specs.Views.{program_of};
ghost use Rattle.complete_scripts.specs.Agreement.{Agree, answer_of};
ghost use Rattle.complete_runs.specs.Alike.{transcript_fault_seen};
ghost use Rattle.tn_moves.specs.Schedules.{IsSpelledBy, schedule_seen};
ghost use Rattle.complete_command.specs.Moves.{MovesAlike, PlansAlike};

use std::alloc::{AllocError, Allocator};
use tn_listing::PicksFault;
use tn_moves::{Directive, MovesFault, Plan, Schedule};
use tn_program::Program;
use tn_trace::{Transcript, TranscriptFault};

/// `tn_moves::mover_len` has one answer.
pub fn mover_len(bytes: &[u8]) -> (usize, usize)
    ensures { result.0 ≡ result.1 }
{
    (tn_moves::mover_len(bytes), tn_moves::mover_len(bytes))
}

/// `tn_moves::pids_named` has one answer for one program.
pub fn pids_named<A: Allocator + Copy>(
    alloc: A,
    first: &Program<A>,
    second: &Program<A>,
    name: &[u8],
) -> (
    Result<Vec<u32, A>, AllocError>,
    Result<Vec<u32, A>, AllocError>,
)
    requires { program_of first.now ≡ program_of second.now }
    ensures { IfOk result.0 (λ v. IfOk result.1 (λ w. v.items ≡ w.items)) }
{
    (
        tn_moves::pids_named(alloc, first, name),
        tn_moves::pids_named(alloc, second, name),
    )
}

/// `tn_moves::directives_of_text` has one answer for one program, and one refusal.
pub fn directives_of_text<A: Allocator + Copy>(
    alloc: A,
    first: &Program<A>,
    second: &Program<A>,
    text: &[u8],
) -> (
    Result<Vec<Directive, A>, MovesFault>,
    Result<Vec<Directive, A>, MovesFault>,
)
    requires { program_of first.now ≡ program_of second.now }
    ensures { MovesAlike result.0 result.1 }
{
    (
        tn_moves::directives_of_text(alloc, first, text),
        tn_moves::directives_of_text(alloc, second, text),
    )
}

/// `tn_moves::Schedule::picks_of_text` has one answer of one schedule.
pub fn picks_of_text<A: Allocator + Copy>(
    alloc: A,
    schedule: &Schedule<'_>,
) -> (
    Result<Vec<u32, A>, PicksFault>,
    Result<Vec<u32, A>, PicksFault>,
)
    ensures { IfOk result.0 (λ v. IfOk result.1 (λ w. v.items ≡ w.items)) }
{
    (schedule.picks_of_text(alloc), schedule.picks_of_text(alloc))
}

/// `tn_moves::Schedule::plan` has plans with the same picks of one program, and one refusal.
pub fn plan<'p, A: Allocator + Copy>(
    alloc: A,
    schedule: &Schedule<'_>,
    first: &Program<A>,
    second: &Program<A>,
    picks: &'p [u32],
) -> (
    Result<Plan<'p, A>, MovesFault>,
    Result<Plan<'p, A>, MovesFault>,
)
    requires same { program_of first.now ≡ program_of second.now }
    requires spelled { IsSpelledBy (schedule_seen schedule.now) picks.now }
    ensures { PlansAlike (program_of first.now) result.0 result.1 }
{
    (
        schedule.plan(alloc, first, picks),
        schedule.plan(alloc, second, picks),
    )
}

/// `tn_moves::moves_of_plan` has one answer for one program.
pub fn moves_of_plan<A: Allocator + Copy>(
    alloc: A,
    first: &Program<A>,
    second: &Program<A>,
    plan: &Plan<'_, A>,
) -> (
    Result<Vec<u32, A>, AllocError>,
    Result<Vec<u32, A>, AllocError>,
)
    requires { program_of first.now ≡ program_of second.now }
    ensures { IfOk result.0 (λ v. IfOk result.1 (λ w. v.items ≡ w.items)) }
{
    (
        tn_moves::moves_of_plan(alloc, first, plan),
        tn_moves::moves_of_plan(alloc, second, plan),
    )
}

/// `tn_moves::transcript_of_plan` has one answer for one program.
pub fn transcript_of_plan<A: Allocator + Copy>(
    alloc: A,
    first: &Program<A>,
    second: &Program<A>,
    plan: &Plan<'_, A>,
    most: usize,
) -> (
    Result<Transcript<A>, TranscriptFault>,
    Result<Transcript<A>, TranscriptFault>,
)
    requires { program_of first.now ≡ program_of second.now }
    ensures { let told = answer_of (λ t. t) transcript_fault_seen in Agree (told result.0) (told result.1) }
{
    (
        tn_moves::transcript_of_plan(alloc, first, plan, most),
        tn_moves::transcript_of_plan(alloc, second, plan, most),
    )
}
