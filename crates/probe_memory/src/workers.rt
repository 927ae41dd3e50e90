// One worker over a script: its report and the close of its lock, or its lines on the board.
ghost use Rattle.std.specs.Prelude.{◌≡◌, []};
ghost use Rattle.tn_trace.specs.Cores.{core_of};

use crate::locks::{LINES, closed_or_say};
use crate::runs::TURNS;
use crate::says::or_say;
use crate::scripts::{Inputs, core_or_say};
use std::alloc::Global;
use std::marker::{Brand, Send, Sync};
use std::sync::Wait;
use std::thread::Threads;
use tn_live::{JournalName, Live, NewLog};
use tn_pool::{Board, Open, Report, run_workers};
use tn_trace::Core;

/// The most sessions of a script.
const SESSIONS: u32 = 128;

/// How many turns are enough for forty of each slot.
const MANY_TURNS: u32 = 65 * 40;

/// Says what a report has beside its seats: the receipts, the tokens and the fault.
fn say_report<J: JournalName, R: Print>(rt: &R, report: &Report<Global, J>) {
    for receipt in &report.receipts {
        let number = receipt.number;
        let pick = receipt.pick;
        let _ = println!(rt; "receipt {number} {pick}");
    }
    for token in &report.tokens {
        let pick = token.pick();
        let _ = println!(rt; "token {pick}");
    }
    let fault = report.fault;
    let _ = println!(rt; "fault {fault:?}");
}

/// Says how many lines a board has, of whatever sessions.
fn say_lines<R: Print>(rt: &R, board: &Board<Global>) {
    let mut lines: u64 = 0;
    for session in 1..=SESSIONS {
        for index in 0..LINES as u64 {
            if board.line(session, index).is_some() {
                lines = lines.saturating_add(1);
            }
        }
    }
    let _ = println!(rt; "lines {lines}");
}

/// One worker over a core: what it reports and the close of the lock, or how many lines it has put on the board.
/// None where a growth was refused before, or the lock doesn't close.
fn work_of_one<J: JournalName + Send + Sync, R: Print + Threads + Wait + Sync>(
    rt: &R,
    alloc: Global,
    core: Core<Global>,
    new_log: NewLog,
    says_lines: bool,
) -> Option<()>
    requires core { core ≡ core_of J.program [] }
    requires named { new_log ≡ J.log }
{
    let sessions = core.program().session_count();
    let board = or_say(rt, "board", Board::new(alloc, alloc, sessions, LINES))?;
    let (live, seats) = or_say(
        rt,
        "lock",
        Live::<Global, J>::begin(alloc, core, new_log, 1),
    )?;
    let turns = if says_lines { MANY_TURNS } else { TURNS };
    let report = run_workers(rt, &live, &board, seats, &Open, turns);
    if says_lines {
        say_lines(rt, &board);
        return Some(());
    }
    say_report(rt, &report);
    closed_or_say(rt, live.close(rt, report.seats))?;
    Some(())
}

/// The same over the script.
pub fn run_one_worker<R: Print + Threads + Wait + Sync>(
    rt: &R,
    inputs: &Inputs<'_>,
    says_lines: bool,
) -> Option<()> {
    let core = core_or_say(rt, inputs)?;
    work_of_one::<Brand, R>(rt, inputs.alloc, core, NewLog::new(), says_lines)
}
