// The passes of a seat once the workers have ended, until nothing moves.
ghost use Rattle.std.specs.Prelude.{◌≡◌, ◌∷◌, [], IfOk, IfSome, OnOk, IsErrOf, IsTrue, length};
ghost use Rattle.def_run.specs.Run.{JOURNAL};
ghost use Rattle.def_run.specs.Round.{pass};
ghost use Rattle.tn_trace.specs.declared.item.StepFault.{StepFault};
ghost use Rattle.tn_run.specs.RestingSeats.{IdlesAt, SeatIsStill, IsStillWhere, IsSettled};

use std::alloc::Allocator;
use std::sync::Wait;
use tn_live::{JournalName, Live, Seat, Turn, total_made};
use tn_trace::StepFault;

/// More passes than the journal has room for moves.
const PASSES: u32 = 65538;

/// Takes a step: where it was idle, how long the journal is.
fn idle_front<A: Allocator + Copy, J: JournalName, R: Wait>(
    rt: &R,
    live: &Live<A, J>,
    seat: &mut Seat<A, J>,
    pick: u32,
) -> Result<Option<u64>, StepFault>
    ensures idle { IfOk result (λ front. IfSome front (IdlesAt J.program pick seat.old seat.new)) }
    ensures full { IsErrOf result StepFault.LimitReached → length seat.new.seen ≡ JOURNAL }
{
    match live.step(rt, seat, pick) {
        Ok(Turn::Moved(_)) => Ok(None),
        Ok(Turn::Idle { front }) => Ok(Some(front)),
        Err(fault) => Err(fault),
    }
}

/// Takes a step of each process from this pid on, in order, whatever each comes to.
fn take_from<A: Allocator + Copy, J: JournalName, R: Wait>(
    rt: &R,
    live: &Live<A, J>,
    seat: &mut Seat<A, J>,
    first: u32,
) -> Result<(), StepFault>
    ensures full { IsErrOf result StepFault.LimitReached → length seat.new.seen ≡ JOURNAL }
{
    for pid in first..164u32 {
        idle_front(rt, live, seat, pid)?;
    }
    Ok(())
}

/// Takes a step of each process, in order: whether all were idle after a journal of this length, which
/// the seat has seen.
fn processes_idle<A: Allocator + Copy, J: JournalName, R: Wait>(
    rt: &R,
    live: &Live<A, J>,
    seat: &mut Seat<A, J>,
    front: u64,
) -> Result<bool, StepFault>
    requires { SeatIsStill J.program front (0 ∷ []) seat.old }
    ensures still { IfOk result (λ all. IsTrue all → SeatIsStill J.program front pass seat.new) }
    ensures full { IsErrOf result StepFault.LimitReached → length seat.new.seen ≡ JOURNAL }
{
    for pid in 100..164u32 {
        match idle_front(rt, live, seat, pid)? {
            Some(now) if now == front => {}
            _ => {
                take_from(rt, live, seat, pid + 1)?;
                return Ok(false);
            }
        }
    }
    Ok(true)
}

/// One pass: the control list, and then the processes. Where nothing moved in it, how long the journal is.
fn still_front<A: Allocator + Copy, J: JournalName, R: Wait>(
    rt: &R,
    live: &Live<A, J>,
    seat: &mut Seat<A, J>,
) -> Result<Option<u64>, StepFault>
    ensures still { IfOk result (IsStillWhere J.program seat.new) }
    ensures full { IsErrOf result StepFault.LimitReached → length seat.new.seen ≡ JOURNAL }
{
    let Some(front) = idle_front(rt, live, seat, 0)? else {
        take_from(rt, live, seat, 100)?;
        return Ok(None);
    };
    if processes_idle(rt, live, seat, front)? {
        return Ok(Some(front));
    }
    Ok(None)
}

/// Passes of the first seat, until one moves nothing after a journal that has all that the seats made, or
/// the journal is full.
///
/// # Errors
///
/// The fault of a step; Spent where there is no seat, or where the seats don't account for the journal.
pub fn settle<A: Allocator + Copy, J: JournalName, R: Wait>(
    rt: &R,
    live: &Live<A, J>,
    seats: &mut [Seat<A, J>],
) -> Result<(), StepFault>
    ensures settled { OnOk result (IsSettled J.program seats.new) }
    ensures length { length seats.new ≡ length seats.old }
{
    if seats.is_empty() {
        return Err(StepFault::Spent);
    }
    for _ in 0..PASSES {
        match still_front(rt, live, &mut seats[0]) {
            Err(StepFault::LimitReached) => return Ok(()),
            Err(fault) => return Err(fault),
            Ok(None) => {}
            Ok(Some(front)) => {
                if total_made(seats) == Some(front) {
                    return Ok(());
                }
            }
        }
    }
    Err(StepFault::Spent)
}
