// A lock that is closed without a seat and then with both, and its output with and without a board.
ghost use Rattle.std.specs.Prelude.{◌≡◌, []};
ghost use Rattle.tn_trace.specs.Cores.{core_of};

use crate::board::check_board;
use std::alloc::Global;
use std::marker::Brand;
use std::process::Abort;
use std::sync::Wait;
use std::test::Fail;
use tn_live::{CloseFault, Closed, JournalName, Live, NewLog, Receipt, Seat, Turn};
use tn_program::{Program, program};
use tn_script::forms;
use tn_trace::Core;

/// A process that spawns two others, of which the first is traced.
const SPAWNS: &str = "{function,m,go,exported,[],[{spawn,'_',{m,kid},[1]},{spawn,'_',{m,kid},[2]}]}.
{function,m,kid,exported,['X'],[]}.
{process,m,go,[]}.
{control,[{session_create,s1,t1,[]},{process,s1,<0.100.0>,true,[procs,set_on_first_spawn]}]}.
";

/// Picks of it, each of which moves.
pub const PICKS: [u32; 9] = [0, 0, 100, 100, 100, 101, 101, 102, 102];

/// The program of the script.
pub fn program_of_script(alloc: Global) -> Result<Program<Global>, Fail> {
    Ok(program(alloc, forms(alloc, SPAWNS.as_bytes())?)?)
}

/// The first seat takes the picks, each of which moves.
fn take<J: JournalName, R: Wait>(
    rt: &R,
    alloc: Global,
    live: &Live<Global, J>,
    seats: &mut [Seat<Global, J>],
) -> Result<Vec<Receipt<Global>>, Fail> {
    let seat = seats.first_mut().ok_or("a seat")?;
    let mut receipts = Vec::new(alloc);
    for pick in &PICKS {
        match live.step(rt, seat, *pick)? {
            Turn::Moved(receipt) => receipts.push(receipt)?,
            Turn::Idle { front: _ } => return Err(Fail::new("idle")),
        }
    }
    Ok(receipts)
}

/// The close without seat 1 handed all else back, and says so; with that seat it succeeds.
fn close_again<J: JournalName, R: Wait + Abort>(
    rt: &R,
    alloc: Global,
    fault: CloseFault<Global, J>,
    second: Seat<Global, J>,
) -> Result<Closed<Global, J>, Fail> {
    let reported = format!(in alloc; "{fault}")?;
    assert_eq!(rt; reported.as_str(), "fault 17 missing seat 1");
    let CloseFault::MissingSeat {
        live,
        mut seats,
        ..
    } = fault
    else {
        return Err(Fail::new("spent"));
    };
    seats.push(second)?;
    match live.close(rt, seats) {
        Ok(closed) => Ok(closed),
        Err(_) => Err(Fail::new("not closed")),
    }
}

/// A close without seat 1 hands all else back, and a second one with both seats succeeds.
fn close_twice<J: JournalName, R: Wait + Abort>(
    rt: &R,
    alloc: Global,
    live: Live<Global, J>,
    mut seats: Vec<Seat<Global, J>>,
) -> Result<Closed<Global, J>, Fail> {
    let second = seats.pop().ok_or("a seat")?;
    match live.close(rt, seats) {
        Ok(_) => Err(Fail::new("a seat is missing")),
        Err(fault) => close_again(rt, alloc, fault, second),
    }
}

/// The picks by the first of two seats, the close, and the output.
fn close_with_a_board<J: JournalName, R: Wait + Abort>(
    rt: &R,
    alloc: Global,
    core: Core<Global>,
    new_log: NewLog,
) -> Result<(), Fail>
    requires core { core ≡ core_of J.program [] }
    requires named { new_log ≡ J.log }
{
    let (live, mut seats) = Live::<Global, J>::begin(alloc, core, new_log, 2)?;
    let receipts = take(rt, alloc, &live, &mut seats)?;
    let closed = close_twice(rt, alloc, live, seats)?;
    check_board(rt, alloc, &closed, receipts)
}

#[test]
fn closed_twice(rt: HostRuntime) -> Result<(), Fail> {
    let alloc = rt.alloc();
    let core = Core::new(alloc, program_of_script(alloc)?)?;
    close_with_a_board::<Brand, _>(&rt, alloc, core, NewLog::new())
}
