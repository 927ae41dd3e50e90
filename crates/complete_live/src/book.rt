// The book of a run.
ghost use Rattle.std.specs.Prelude.{◌≡◌, ◌≤◌, ◌<◌, [], IfOk};
ghost use Rattle.tn_program.specs.Views.{program_of};
ghost use Rattle.tn_trace.specs.Cores.{core_of};
ghost use Rattle.tn_live.specs.States.{SeatFits};
ghost use Rattle.complete_live.specs.Alike.{TurnAlike};

use std::alloc::{AllocError, Allocator};
use tn_live::{Book, JournalName, NewLog, Seat, Turn};
use tn_program::Program;
use tn_trace::{Core, StepFault};

/// `tn_live::Book::begin` has one answer.
pub fn begin<A: Allocator + Copy, J: JournalName, K: JournalName>(
    alloc: A,
    one: Core<A>,
    other: Core<A>,
    new_log: NewLog,
    same_opened: NewLog,
    n: u32,
) -> (
    Result<(Book<A, J>, Vec<Seat<A, J>, A>), AllocError>,
    Result<(Book<A, K>, Vec<Seat<A, K>, A>), AllocError>,
)
    requires first { one ≡ core_of J.program [] }
    requires second { other ≡ core_of K.program [] }
    requires named { new_log ≡ J.log }
    requires same_named { same_opened ≡ K.log }
    requires count { (0 < n) × (n ≤ 16) }
    ensures books { IfOk result.0 (λ r. IfOk result.1 (λ q. r.0 ≡ q.0)) }
    ensures seats { IfOk result.0 (λ r. IfOk result.1 (λ q. r.1.items ≡ q.1.items)) }
{
    let first = Book::<A, J>::begin(alloc, one, new_log, n);
    let second = Book::<A, K>::begin(alloc, other, same_opened, n);
    (first, second)
}

/// `tn_live::Book::fits` has one answer.
pub fn fits<A: Allocator + Copy, J: JournalName, K: JournalName>(
    one: &Book<A, J>,
    other: &Book<A, K>,
    program: &Program<A>,
    same_program: &Program<A>,
    seat: &Seat<A, J>,
    same_seat: &Seat<A, K>,
) -> (bool, bool)
    requires named { J.program ≡ K.program }
    requires books { one.now ≡ other.now }
    requires programs { program_of program.now ≡ program_of same_program.now }
    requires seats { seat.now ≡ same_seat.now }
    ensures { result.0 ≡ result.1 }
{
    let first = one.fits(program, seat);
    let second = other.fits(same_program, same_seat);
    (first, second)
}

/// `tn_live::Book::step` has one answer. It includes the book and the seat afterwards.
pub fn step<A: Allocator + Copy, J: JournalName, K: JournalName>(
    one: &mut Book<A, J>,
    other: &mut Book<A, K>,
    seat: &mut Seat<A, J>,
    same_seat: &mut Seat<A, K>,
    pick: u32,
) -> (Result<Turn<A>, StepFault>, Result<Turn<A>, StepFault>)
    requires named { J.program ≡ K.program }
    requires books { one.old ≡ other.old }
    requires seats { seat.old ≡ same_seat.old }
    requires fits { SeatFits one.old seat.old }
    ensures { TurnAlike seat.old result.0 one.new seat.new result.1 other.new same_seat.new }
{
    let first = one.step(seat, pick);
    let second = other.step(same_seat, pick);
    (first, second)
}
