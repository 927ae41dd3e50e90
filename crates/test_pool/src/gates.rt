// What a gate is told, and when: a step is answered before the gate hears of it, and two workers run side by side.
ghost use Rattle.std.specs.Prelude.{◌≡◌, []};
ghost use Rattle.tn_trace.specs.Cores.{core_of};

use crate::lock::program_of_script;
use std::alloc::Global;
use std::marker::{Brand, Send, Sync};
use std::process::Abort;
use std::sync::Wait;
use std::sync::atomic::{AtomicU64, Ordering};
use std::test::Fail;
use std::thread::Threads;
use tn_live::{JournalName, Live, NewLog};
use tn_pool::{Board, Gate, run_workers};
use tn_trace::Core;

/// How often a worker looks for the other before it gives up.
const POLLS: u64 = 4_000_000_000;

/// Holds worker 1 before its first turn until worker 0's first is answered, and worker 0 at that answer until
/// worker 1 begins another turn, so that its own step has been taken by then.
#[derive(Drop)]
struct Orders {
    answers: AtomicU64,
    begins: AtomicU64,
    gave_up: AtomicU64,
}

impl Orders {
    /// Looks until the count has come so far.
    fn wait_for(&self, count: &AtomicU64, least: u64) {
        for _ in 0..POLLS {
            if count.load(Ordering::SeqCst) >= least {
                return;
            }
        }
        self.gave_up.store(1, Ordering::SeqCst);
    }
}

impl Gate for Orders {
    fn before_turn(&self, worker: u32) {
        if worker == 1 && self.begins.fetch_add(1, Ordering::SeqCst) == 0 {
            self.wait_for(&self.answers, 1);
        }
    }

    fn after_turn(&self, worker: u32) {
        if worker == 0 && self.answers.fetch_add(1, Ordering::SeqCst) == 0 {
            self.wait_for(&self.begins, 2);
        }
    }
}

/// The first entry is of worker 0, though it is held once its answer is told.
fn two_workers<J: JournalName + Send + Sync, R: Threads + Abort + Wait + Sync>(
    rt: &R,
    alloc: Global,
    core: Core<Global>,
    new_log: NewLog,
) -> Result<(), Fail>
    requires core { core ≡ core_of J.program [] }
    requires named { new_log ≡ J.log }
{
    let (live, seats) = Live::<Global, J>::begin(alloc, core, new_log, 2)?;
    let board = Board::new(alloc, alloc, 1, 16)?;
    let gate = Orders {
        answers: AtomicU64::new(0),
        begins: AtomicU64::new(0),
        gave_up: AtomicU64::new(0),
    };
    let report = run_workers(rt, &live, &board, seats, &gate, 100);
    assert_eq!(rt; gate.gave_up.load(Ordering::SeqCst), 0);
    let mut first = None;
    for receipt in &report.receipts {
        if receipt.number == 0 {
            first = Some(receipt.seat);
        }
    }
    assert_eq!(rt; first, Some(0));
    Ok(())
}

#[test]
fn an_answer_is_there_when_it_is_told(rt: HostRuntime) -> Result<(), Fail> {
    let alloc = rt.alloc();
    let core = Core::new(alloc, program_of_script(alloc)?)?;
    two_workers::<Brand, _>(&rt, alloc, core, NewLog::new())
}
