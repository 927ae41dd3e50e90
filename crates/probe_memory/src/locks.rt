// Steps under a lock by two seats, and the output of the closed lock.
ghost use Rattle.std.specs.Prelude.{◌≡◌, []};
ghost use Rattle.tn_trace.specs.Cores.{core_of};

use crate::says::{or_say, print_bytes};
use crate::scripts::{Inputs, core_or_say};
use std::alloc::Global;
use std::marker::Brand;
use std::sync::Wait;
use tn_listing::line_of;
use tn_live::{CloseFault, Closed, JournalName, Live, NewLog, Receipt, Seat, Turn};
use tn_pool::{Board, assemble};
use tn_trace::Core;

/// How many lines of each session a board has places for.
pub const LINES: usize = 16;

/// Puts the lines of a receipt's messages on the board; one that is refused memory stays away.
fn put_lines(alloc: Global, board: &Board<Global>, receipt: Receipt<Global>) {
    for item in receipt.items {
        if let Ok(line) = line_of(alloc, item) {
            let _ = board.put(line);
        }
    }
}

/// Takes a step, and says what it came to and how many entries its seat has made by then. The lines are put on the
/// board.
fn step<J: JournalName, R: Print + Wait>(
    rt: &R,
    alloc: Global,
    live: &Live<Global, J>,
    seat: &mut Seat<Global, J>,
    board: &Board<Global>,
    pick: u32,
) {
    let answer = live.step(rt, seat, pick);
    let made = seat.made();
    let _ = match answer {
        Ok(Turn::Moved(receipt)) => {
            put_lines(alloc, board, receipt);
            println!(rt; "step {pick} moved {made}")
        }
        Ok(Turn::Idle { front }) => println!(rt; "step {pick} idle {made} of {front}"),
        Err(fault) => println!(rt; "step {pick} {fault:?} {made}"),
    };
}

/// The first seat and then the other by turns take a pick each, and both one more, which no process takes.
fn take<J: JournalName, R: Print + Wait>(
    rt: &R,
    inputs: &Inputs<'_>,
    live: &Live<Global, J>,
    seats: &mut [Seat<Global, J>],
    board: &Board<Global>,
) {
    for (at, pick) in inputs.picks.iter().enumerate() {
        if let Some(seat) = seats.get_mut(at % 2) {
            step(rt, inputs.alloc, live, seat, board, *pick);
        }
    }
    for seat in seats {
        step(rt, inputs.alloc, live, seat, board, 999);
    }
}

/// Prints the output of a closed lock, with a second call where the first is refused memory.
fn print_output<J: JournalName, R: Print>(
    rt: &R,
    alloc: Global,
    closed: &Closed<Global, J>,
    board: &Board<Global>,
) {
    for _ in 0..2 {
        if let Some(assembled) = or_say(rt, "assemble", assemble(alloc, closed, board)) {
            let taken = assembled.taken;
            let _ = println!(rt; "assembled {taken}");
            print_bytes(rt, &assembled.text);
            return;
        }
    }
}

/// Says the entries of a closed lock; where it didn't close, the fault.
pub fn closed_or_say<J: JournalName, R: Print>(
    rt: &R,
    closed: Result<Closed<Global, J>, CloseFault<Global, J>>,
) -> Option<Closed<Global, J>> {
    let closed = or_say(rt, "close", closed)?;
    for entry in closed.journal() {
        let seat = entry.seat;
        let pick = entry.pick;
        let _ = println!(rt; "entry {seat} {pick}");
    }
    Some(closed)
}

/// The picks by two seats of a lock, its close and its output. None where a growth was refused before, or the lock
/// doesn't close.
fn steps_of_a_lock<J: JournalName, R: Print + Wait>(
    rt: &R,
    inputs: &Inputs<'_>,
    core: Core<Global>,
    new_log: NewLog,
) -> Option<()>
    requires core { core ≡ core_of J.program [] }
    requires named { new_log ≡ J.log }
{
    let alloc = inputs.alloc;
    let sessions = core.program().session_count();
    let board = or_say(rt, "board", Board::new(alloc, alloc, sessions, LINES))?;
    let (live, mut seats) = or_say(
        rt,
        "lock",
        Live::<Global, J>::begin(alloc, core, new_log, 2),
    )?;
    take(rt, inputs, &live, seats.as_mut_slice(), &board);
    let closed = closed_or_say(rt, live.close(rt, seats))?;
    print_output(rt, alloc, &closed, &board);
    Some(())
}

/// The same over the script.
pub fn steps_by_two_seats<R: Print + Wait>(rt: &R, inputs: &Inputs<'_>) -> Option<()> {
    let core = core_or_say(rt, inputs)?;
    steps_of_a_lock::<Brand, R>(rt, inputs, core, NewLog::new())
}
