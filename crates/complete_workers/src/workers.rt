// What workers hand back.
ghost use Rattle.std.specs.Prelude.{◌≡◌};
ghost use Rattle.complete_workers.specs.Receipts.{EarnAlike, seat_numbers};

use std::alloc::Allocator;
use std::marker::{Send, Sync};
use std::sync::Wait;
use std::thread::Threads;
use tn_live::{JournalName, Live, Seat};
use tn_pool::{Board, Gate, Report};

/// `tn_pool::run_workers` has one answer but for what each seat has seen, and for faults and tokens that are
/// kept: the receipts go by what the seats have seen.
pub fn run_workers<
    A: Allocator + Copy + Send + Sync,
    J: JournalName + Send + Sync,
    R: Threads + Wait + Sync,
    G: Gate,
>(
    rt: &R,
    live: &Live<A, J>,
    board: &Board<A>,
    seats: (Vec<Seat<A, J>, A>, Vec<Seat<A, J>, A>),
    gate: &G,
    turns: u32,
) -> (Report<A, J>, Report<A, J>)
    requires { seats.0.items ≡ seats.1.items }
    ensures numbers { seat_numbers result.0.seats.items ≡ seat_numbers result.1.seats.items }
    ensures receipts { EarnAlike result.0 result.1 }
{
    let (one, other) = seats;
    let first = tn_pool::run_workers(rt, live, board, one, gate, turns);
    let second = tn_pool::run_workers(rt, live, board, other, gate, turns);
    (first, second)
}
