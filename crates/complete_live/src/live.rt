// The lock of a run.
ghost use Rattle.std.specs.Prelude.{◌≡◌, ◌≤◌, ◌<◌, [], IfOk};
ghost use Rattle.tn_trace.specs.Cores.{core_of};
ghost use Rattle.complete_live.specs.Alike.{TakesAlike, CloseAlike};

use std::alloc::{AllocError, Allocator};
use std::sync::Wait;
use tn_live::{CloseFault, Closed, JournalName, Live, NewLog, Seat, Turn};
use tn_trace::{Core, StepFault};

/// `tn_live::Live::begin` has one answer.
pub fn begin<A: Allocator + Copy, J: JournalName, K: JournalName>(
    alloc: A,
    one: Core<A>,
    other: Core<A>,
    new_log: NewLog,
    same_opened: NewLog,
    n: u32,
) -> (
    Result<(Live<A, J>, Vec<Seat<A, J>, A>), AllocError>,
    Result<(Live<A, K>, Vec<Seat<A, K>, A>), AllocError>,
)
    requires first { one ≡ core_of J.program [] }
    requires second { other ≡ core_of K.program [] }
    requires named { new_log ≡ J.log }
    requires same_named { same_opened ≡ K.log }
    requires logs { J.log ≡ K.log }
    requires count { (0 < n) × (n ≤ 16) }
    ensures lives { IfOk result.0 (λ r. IfOk result.1 (λ q. r.0 ≡ q.0)) }
    ensures seats { IfOk result.0 (λ r. IfOk result.1 (λ q. r.1.items ≡ q.1.items)) }
{
    let first = Live::<A, J>::begin(alloc, one, new_log, n);
    let second = Live::<A, K>::begin(alloc, other, same_opened, n);
    (first, second)
}

/// `tn_live::Live::step` has one answer where both seats have then seen the same.
pub fn step<A: Allocator + Copy, J: JournalName, K: JournalName, R: Wait>(
    locks: (&Live<A, J>, &Live<A, K>),
    rt: &R,
    seat: &mut Seat<A, J>,
    same_seat: &mut Seat<A, K>,
    pick: u32,
) -> (Result<Turn<A>, StepFault>, Result<Turn<A>, StepFault>)
    requires named { J.program ≡ K.program }
    requires seats { seat.old ≡ same_seat.old }
    ensures { TakesAlike seat.old result.0 seat.new result.1 same_seat.new }
{
    let first = locks.0.step(rt, seat, pick);
    let second = locks.1.step(rt, same_seat, pick);
    (first, second)
}

/// `tn_live::Live::close` has one answer. It includes the lock and the seats that come back.
pub fn close<A: Allocator + Copy, J: JournalName, K: JournalName, R: Wait>(
    one: Live<A, J>,
    other: Live<A, K>,
    rt: &R,
    seats: Vec<Seat<A, J>, A>,
    same_seats: Vec<Seat<A, K>, A>,
) -> (
    Result<Closed<A, J>, CloseFault<A, J>>,
    Result<Closed<A, K>, CloseFault<A, K>>,
)
    requires locks { one ≡ other }
    requires seats { seats.items ≡ same_seats.items }
    ensures { CloseAlike result.0 result.1 }
{
    let first = one.close(rt, seats);
    let second = other.close(rt, same_seats);
    (first, second)
}
