// Workers, each in a thread of its own where one can be made.
ghost use Rattle.std.specs.Prelude.{◌≡◌, ◌+◌, ◌≤◌, ◌<◌, ◌*◌, ℕ, []};
ghost use Rattle.std.specs.Prelude.{◌++◌, IfOk, All, length, option_to_list, vec_len, vec_capacity};
ghost use Rattle.tn_pool.specs.Endings.{first_fault};
ghost use Rattle.tn_pool.specs.Reports.{HasWorked, WorksAt, AreNew, IsEmptyReport, ReportHasRoom};
ghost use Rattle.tn_pool.specs.Reports.{AddsWorker, IsNothingDone, Reports, TellsEndings};
ghost use Rattle.tn_pool.specs.Reports.{seats_of, receipts_of, member_tokens, member_fault, member_count};

use crate::board::Board;
use crate::gate::Gate;
use crate::report::{PoolFault, Report};
use crate::token::Token;
use crate::turns::{RunQueue, TurnEnd};
use crate::worker::{Worker, WorkerContext, new_worker, work};
use std::alloc::{AllocError, Allocator};
use std::marker::{Send, Sync};
use std::sync::Wait;
use std::thread;
use std::thread::Threads;
use tn_live::{JournalName, Live, Seat};

/// Each worker takes its turns.
fn run_all<
    A: Allocator + Copy + Send + Sync,
    J: JournalName + Send + Sync,
    R: Threads + Wait + Sync,
    G: Gate,
>(
    rt: &R,
    live: &Live<A, J>,
    board: &Board<A>,
    gate: &G,
    turns: u32,
    members: &mut [(TurnEnd<'_, A>, Worker<A, J>)],
)
    ensures length { length members.new ≡ length members.old }
    ensures each { (i : ℕ) (d : _) → i < length members.old → WorksAt J.program turns members.old members.new i d }
{
    let threads = members.len();
    if threads == 0 {
        return;
    }
    thread::for_each_mut(
        rt,
        members,
        threads,
        &|_i: usize, member: &mut (TurnEnd<'_, A>, Worker<A, J>)|
            ensures { HasWorked J.program turns member.entry.now member.exit.now }
        {
            let shared = WorkerContext { live, board, gate };
            work(rt, &shared, turns, &mut member.0, &mut member.1)
        },
    );
}

/// Gives each seat an end, and a number from 0.
fn pack<'a, A: Allocator + Copy, J: JournalName>(
    alloc: A,
    seats: Vec<Seat<A, J>, A>,
    mut ends: Vec<TurnEnd<'a, A>, A>,
    members: &mut Vec<(TurnEnd<'a, A>, Worker<A, J>), A>,
)
    requires ends { vec_len seats ≤ vec_len ends }
    requires unused { All (λ view. view ≡ []) ends.items }
    requires room { vec_len seats ≤ vec_capacity members.old }
    requires empty { (members.old.items ≡ []) × (vec_len members.old ≡ 0) }
    ensures seats { seats_of members.new.items ≡ seats.items }
    ensures count { vec_len members.new ≡ vec_len seats }
    ensures new { AreNew members.new.items }
{
    let mut number = 0u32;
    for seat in seats {
        if let Some(end) = ends.pop() {
            members.push_reserved((end, new_worker(alloc, number, seat)));
            number = number.saturating_add(1);
        } else {
            unreachable!();
        }
    }
}

/// Adds a token, if there is one, to tokens that have room for it.
fn add_token<A: Allocator>(tokens: &mut Vec<Token, A>, kept: Option<Token>)
    requires { vec_len tokens.old < vec_capacity tokens.old }
    ensures items { tokens.new.items ≡ tokens.old.items ++ option_to_list kept }
    ensures room { (vec_len tokens.new ≤ vec_len tokens.old + 1) × (vec_capacity tokens.new ≡ vec_capacity tokens.old) }
{
    match kept {
        Some(token) => tokens.push_reserved(token),
        None => {}
    }
}

/// The first of two faults, if any.
fn first_fault(first: Option<PoolFault>, later: Option<PoolFault>) -> Option<PoolFault>
    ensures { result ≡ first_fault first later }
{
    match first {
        Some(fault) => Some(fault),
        None => later,
    }
}

/// Adds what a worker has to a report that has room for it.
fn add_worker<A: Allocator, J: JournalName>(report: &mut Report<A, J>, worker: Worker<A, J>)
    requires { ReportHasRoom 1 (vec_len worker.receipts) report.old }
    ensures { AddsWorker worker report.old report.new }
{
    let Worker {
        number: _,
        seat,
        receipts: mut earned,
        kept,
        fault,
    } = worker;
    report.seats.push_reserved(seat);
    let _ = report.receipts.append(&mut earned);
    add_token(&mut report.tokens, kept);
    report.fault = first_fault(report.fault, fault);
}

/// Takes the workers apart, into a report that has room for what they have.
fn unpack<A: Allocator, J: JournalName>(
    members: Vec<(TurnEnd<'_, A>, Worker<A, J>), A>,
    report: &mut Report<A, J>,
)
    requires empty { IsEmptyReport report.old }
    requires room { ReportHasRoom (vec_len members) (member_count members.items) report.old }
    ensures seats { report.new.seats.items ≡ seats_of members.entry.items }
    ensures receipts { report.new.receipts.items ≡ receipts_of members.entry.items }
    ensures tokens { report.new.tokens.items ≡ member_tokens members.entry.items }
    ensures fault { report.new.fault ≡ member_fault members.entry.items }
{
    for (_, worker) in members {
        add_worker(report, worker);
    }
}

/// A report with no seat yet, which has room for so many, and so many receipts for each.
fn empty_report<A: Allocator + Copy, J: JournalName>(
    alloc: A,
    seats: usize,
    turns: u32,
) -> Result<Report<A, J>, AllocError>
    ensures empty { IfOk result IsEmptyReport }
    ensures room { IfOk result (λ r. ReportHasRoom seats (seats * turns) r) }
{
    let Some(receipts) = seats.checked_mul(turns as usize) else {
        return Err(AllocError);
    };
    Ok(Report {
        seats: Vec::with_capacity(alloc, seats)?,
        receipts: Vec::with_capacity(alloc, receipts)?,
        tokens: Vec::with_capacity(alloc, seats)?,
        fault: None,
    })
}

/// The report where memory was refused before any turn was taken.
fn report_without_memory<A: Allocator + Copy, J: JournalName>(
    alloc: A,
    seats: Vec<Seat<A, J>, A>,
) -> Report<A, J>
    ensures reports { Reports J.program seats.items result.seats.items result.receipts.items }
    ensures nothing { IsNothingDone result }
{
    Report {
        seats,
        receipts: Vec::new(alloc),
        tokens: Vec::new(alloc),
        fault: Some(PoolFault::Memory),
    }
}

/// Runs a worker for each seat, numbered from 0 in the seats' order: each takes at most so many turns, in a
/// thread of its own where one can be made, else on the caller's. A turn takes a token from the run queue,
/// tells the gate, takes the step of the token's pick, tells the gate again and gives the token back; one
/// that finds no token counts too. Once the lock is free, the line of each message that the step added is
/// put on the board; one that can't be made or put there is passed over. All seats come back, and for each
/// entry that a seat made there is one receipt. The caller gives seats of this lock alone.
///
/// A worker ends early where the journal is full, which is no fault; where its step is answered another
/// fault; and where memory is refused, for a receipt or for giving its token back. No turn is taken where
/// memory is refused for what the workers need before they start, which is room for as many receipts as
/// all seats may make.
#[tactic(auto, using(crate::proofs::Reports::nothing_ends))]
pub fn run_workers<
    A: Allocator + Copy + Send + Sync,
    J: JournalName + Send + Sync,
    R: Threads + Wait + Sync,
    G: Gate,
>(
    rt: &R,
    live: &Live<A, J>,
    board: &Board<A>,
    seats: Vec<Seat<A, J>, A>,
    gate: &G,
    turns: u32,
) -> Report<A, J>
    // All seats come back, with a receipt for each entry that they made meanwhile, and no other.
    ensures reports { Reports J.program seats.items result.seats.items result.receipts.items }
    // How many receipts and tokens there are at most, and that a token which wasn't given back has a fault.
    ensures endings { TellsEndings (length seats.items) turns result }
{
    let alloc = board.allocator();
    let count = seats.len();
    let Ok(ends_count) = u32::try_from(count) else {
        return report_without_memory(alloc, seats);
    };
    let Ok(mut report) = empty_report(alloc, count, turns) else {
        return report_without_memory(alloc, seats);
    };
    let Ok(mut queue) = RunQueue::full(rt, alloc) else {
        return report_without_memory(alloc, seats);
    };
    let Ok(ends) = queue.ends(alloc, ends_count) else {
        return report_without_memory(alloc, seats);
    };
    let Ok(mut members) = Vec::with_capacity(alloc, count) else {
        return report_without_memory(alloc, seats);
    };
    pack(alloc, seats, ends, &mut members);
    run_all(rt, live, board, gate, turns, members.as_mut_slice());
    unpack(members, &mut report);
    report
}
