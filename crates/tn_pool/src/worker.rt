// One worker, and the turns that it takes.
ghost use Rattle.std.specs.Prelude.{◌≡◌, ◌+◌, ◌<◌, ◌≤◌, [], vec_len, vec_capacity};
ghost use Rattle.tn_pool.specs.Earnings.{Works, WorksOn, StaysSo};
ghost use Rattle.tn_pool.specs.Endings.{ending_fault, IsReady, IsAccounted, WorkerStepsOn, GivesBack, TurnsOn};

use crate::board::Board;
use crate::gate::Gate;
use crate::report::PoolFault;
use crate::token::Token;
use crate::turns::TurnEnd;
use std::alloc::Allocator;
use std::sync::Wait;
use tn_live::{JournalName, Live, Receipt, Seat, Turn};
use tn_trace::StepFault;

/// What workers share beside the run queue: the lock, the board for their lines, and what is told of each
/// turn.
#[derive(Drop)]
pub struct WorkerContext<'s, A: Allocator, J: JournalName, G: Gate> {
    pub live: &'s Live<A, J>,
    pub board: &'s Board<A>,
    pub gate: &'s G,
}

/// A worker: its number, its seat, and what came of its turns.
#[derive(Drop)]
pub struct Worker<A: Allocator, J: JournalName> {
    pub number: u32,
    pub seat: Seat<A, J>,
    pub receipts: Vec<Receipt<A>, A>,
    pub kept: Option<Token>,
    pub fault: Option<PoolFault>,
}

/// A worker that has taken no turn.
pub fn new_worker<A: Allocator, J: JournalName>(
    alloc: A,
    number: u32,
    seat: Seat<A, J>,
) -> Worker<A, J>
    ensures seat { result.seat ≡ seat }
    ensures receipts { (result.receipts.items ≡ []) × (vec_len result.receipts ≡ 0) }
    ensures ready { IsReady [] result }
{
    Worker {
        number,
        seat,
        receipts: Vec::new(alloc),
        kept: None,
        fault: None,
    }
}

/// The fault of a worker whose step was answered this; None where the journal is full.
fn ending_fault(fault: StepFault) -> Option<PoolFault>
    ensures { result ≡ ending_fault fault }
{
    match fault {
        StepFault::LimitReached => None,
        StepFault::Spent => Some(PoolFault::Step(StepFault::Spent)),
        StepFault::OutOfMemory => Some(PoolFault::Step(StepFault::OutOfMemory)),
    }
}

/// Takes the step of a pick, for which there is room, and puts the lines of its messages on the board once
/// the lock is free. Whether the worker goes on.
fn step<A: Allocator + Copy, J: JournalName, R: Wait, G: Gate>(
    rt: &R,
    shared: &WorkerContext<'_, A, J, G>,
    worker: &mut Worker<A, J>,
    pick: u32,
) -> bool
    requires room { vec_len worker.old.receipts < vec_capacity worker.old.receipts }
    ensures works { WorksOn J.program worker.old worker.new }
    ensures few { vec_len worker.new.receipts ≤ vec_len worker.old.receipts + 1 }
    ensures ends { WorkerStepsOn result worker.old worker.new }
{
    match shared.live.step(rt, &mut worker.seat, pick) {
        Ok(Turn::Moved(receipt)) => {
            shared.board.show(&receipt.items);
            worker.receipts.push_reserved(receipt);
            true
        }
        Ok(Turn::Idle { front: _ }) => true,
        Err(fault) => {
            worker.fault = ending_fault(fault);
            false
        }
    }
}

/// Gives the token of a turn back, or keeps it for the report. Whether it was given.
fn give_back<A: Allocator, J: JournalName, R: Wait>(
    rt: &R,
    end: &mut TurnEnd<'_, A>,
    worker: &mut Worker<A, J>,
    token: Token,
) -> bool
    ensures same { StaysSo worker.old worker.new }
    ensures gives { GivesBack result token end.old worker.old end.new worker.new }
{
    let Err(token) = end.give_turn(rt, token) else {
        return true;
    };
    worker.kept = Some(token);
    if worker.fault.is_none() {
        worker.fault = Some(PoolFault::Memory);
    }
    false
}

/// Takes a turn, if there is a token. Whether the worker goes on.
fn turn<A: Allocator + Copy, J: JournalName, R: Wait, G: Gate>(
    rt: &R,
    shared: &WorkerContext<'_, A, J, G>,
    end: &mut TurnEnd<'_, A>,
    worker: &mut Worker<A, J>,
) -> bool
    ensures works { WorksOn J.program worker.old worker.new }
    ensures few { vec_len worker.new.receipts ≤ vec_len worker.old.receipts + 1 }
    ensures ends { IsReady end.old worker.old → TurnsOn result end.new worker.new }
{
    if worker.receipts.reserve(1).is_err() {
        worker.fault = Some(PoolFault::Memory);
        return false;
    }
    let Some(token) = end.take_turn(rt) else {
        return true;
    };
    shared.gate.before_turn(worker.number);
    let goes_on = step(rt, shared, worker, token.pick());
    shared.gate.after_turn(worker.number);
    if !give_back(rt, end, worker, token) {
        return false;
    }
    goes_on
}

/// Takes at most so many turns.
pub fn work<A: Allocator + Copy, J: JournalName, R: Wait, G: Gate>(
    rt: &R,
    shared: &WorkerContext<'_, A, J, G>,
    turns: u32,
    end: &mut TurnEnd<'_, A>,
    worker: &mut Worker<A, J>,
)
    ensures works { WorksOn J.program worker.old worker.new }
    ensures few { vec_len worker.new.receipts ≤ vec_len worker.old.receipts + turns }
    ensures accounted { IsReady end.old worker.old → IsAccounted end.new worker.new }
{
    for _ in 0..turns {
        if !turn(rt, shared, end, worker) {
            break;
        }
    }
}
