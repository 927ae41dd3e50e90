// A run by workers: a script in, and the output of the journal that they made out.
ghost use Rattle.std.specs.Prelude.{◌≡◌, [], None, Some, IfOk, IfErr, OnOk};
ghost use Rattle.std.specs.Option.{option_map};
ghost use Rattle.tn_program.specs.Views.{program_of};
ghost use Rattle.tn_trace.specs.Cores.{core_of};
ghost use Rattle.tn_run.specs.RestingSeats.{RunsToRest, IsClosedOutput};
ghost use Rattle.tn_run.specs.Answers.{live_run};
ghost use Rattle.tn_run.specs.Jobs.{IsOfNoEnd, IsProgramAnswer, Meets, Prepares};
ghost use Rattle.tn_run.specs.Workers.{IsWorkerCount};

use crate::ends::write_output;
use crate::fault::{LiveFault, RunFault};
use crate::job::{Job, Reading, read_script};
use crate::last_passes::settle;
use crate::outcome::{Outcome, RunRefusal, is_listed};
use crate::refusal_form::RefusalForm;
use std::alloc::{Allocator, Global};
use std::io::{Read, Write};
use std::marker::{Brand, Send, Sync};
use std::sync::Wait;
use std::thread::Threads;
use tn_listing::PicksFault;
use tn_live::{Closed, JournalName, Live, NewLog, Seat};
use tn_memory::WithinMemory;
use tn_pool::{Board, Gate, PoolFault, Report, assemble, run_workers};
use tn_program::Program;
use tn_refusal::Refusal;
use tn_text::Watched;
use tn_trace::{Core, StepFault};

/// How a node is run by workers.
#[derive(Drop)]
pub struct Workers<'g, G: Gate> {
    /// How many there are.
    pub count: u32,
    /// How many turns each takes at most.
    pub turns: u32,
    /// How many bytes of memory the run takes at most.
    pub memory: u64,
    /// What is told of each turn.
    pub gate: &'g G,
}

/// What was written, and the picks of the journal.
#[derive(Drop)]
pub struct Ran {
    pub outcome: Outcome,
    pub picks: Vec<u32>,
}

/// Memory was refused before the workers began, or after they ended.
const OUT_OF_MEMORY: LiveFault = LiveFault::Run(RunFault::OutOfMemory);

/// How many lines of each session the board has places for.
const LINES: usize = 1024;

/// The picks of a closed journal, and its output, for which lines may lie on the board.
fn finish<A: Allocator + Copy, J: JournalName>(
    alloc: A,
    closed: &Closed<A, J>,
    board: &Board<A>,
) -> Result<(Vec<u32, A>, Vec<u8, A>), LiveFault>
    ensures output { IfOk result (λ r. IsClosedOutput J.program closed.now r.0.items r.1.items) }
    ensures faults { IfErr result (IsOfNoEnd live_run) }
{
    let Ok(assembled) = assemble(alloc, closed, board) else {
        return Err(OUT_OF_MEMORY);
    };
    Ok((assembled.picks, assembled.text))
}

/// The seats of workers, where none of these had a fault. Their receipts are given back.
fn seats_of<A: Allocator, J: JournalName>(
    report: Report<A, J>,
) -> Result<Vec<Seat<A, J>, A>, LiveFault>
    ensures seats { IfOk result (λ seats. seats ≡ report.seats) }
    ensures unfaulted { OnOk result (report.fault ≡ None) }
    ensures fault { IfErr result (λ e. option_map (λ fault. LiveFault.Pool fault) report.fault ≡ Some e) }
    ensures faults { IfErr result (IsOfNoEnd live_run) }
{
    match report.fault {
        Some(fault) => Err(LiveFault::Pool(fault)),
        None => Ok(report.seats),
    }
}

/// Workers run the node of a core, and then its first seat until nothing moves: the picks and the output.
fn run_core<
    A: Allocator + Copy + Send + Sync,
    J: JournalName + Send + Sync,
    T: Threads + Wait + Sync,
    G: Gate,
>(
    rt: &T,
    heaps: (Global, A),
    core: Core<A>,
    new_log: NewLog,
    workers: &Workers<'_, G>,
) -> Result<(Vec<u32, A>, Vec<u8, A>), LiveFault>
    requires core { core ≡ core_of J.program [] }
    requires named { new_log ≡ J.log }
    requires count { IsWorkerCount workers.now.count }
    ensures output { IfOk result (λ r. RunsToRest J.program r.0.items r.1.items) }
    ensures faults { IfErr result (IsOfNoEnd live_run) }
{
    let (boxes, alloc) = heaps;
    let sessions = core.program().session_count();
    let Ok(board) = Board::new(alloc, boxes, sessions, LINES) else {
        return Err(OUT_OF_MEMORY);
    };
    let Ok((live, seats)) = Live::<A, J>::begin(alloc, core, new_log, workers.count) else {
        return Err(OUT_OF_MEMORY);
    };
    let report = run_workers(rt, &live, &board, seats, workers.gate, workers.turns);
    let mut seats = seats_of(report)?;
    if let Err(fault) = settle(rt, &live, &mut seats) {
        return Err(LiveFault::Pool(PoolFault::Step(fault)));
    }
    let Ok(closed) = live.close(rt, seats) else {
        return Err(LiveFault::Pool(PoolFault::Step(StepFault::Spent)));
    };
    finish(alloc, &closed, &board)
}

/// The run of a node by workers.
#[derive(Clone, Copy)]
pub struct LiveRun;

/// The picks and the output of a program that workers run.
fn run_program<A: Allocator + Copy + Send + Sync, T: Threads + Wait + Sync, G: Gate>(
    rt: &T,
    heaps: (Global, A),
    program: Program<A>,
    workers: &Workers<'_, G>,
) -> Result<(Vec<u32, A>, Vec<u8, A>), LiveFault>
    requires { IsWorkerCount workers.now.count }
    ensures output { IfOk result (λ r. RunsToRest (program_of program) r.0.items r.1.items) }
    ensures faults { IfErr result (IsOfNoEnd live_run) }
{
    let (_, alloc) = heaps;
    let Ok(core) = Core::new(alloc, program) else {
        return Err(OUT_OF_MEMORY);
    };
    run_core::<A, Brand, T, G>(rt, heaps, core, NewLog::new(), workers)
}

impl Job<Global> for LiveRun {
    ghost use Rattle.tn_run.specs.Answers.{live_run};

    type Outcome = Ran;

    type Fault = LiveFault;

    ghost view = { λ job. live_run };

    ghost takes = { λ job picks. Unit {0} };

    fn picks(&self, alloc: Global) -> Result<Vec<u32>, PicksFault> {
        Ok(Vec::new(alloc))
    }

    fn refusal_outcome(&self, alloc: Global, refusal: Refusal) -> (Ran, RefusalForm) {
        let ran = Ran {
            outcome: Outcome::Refused(RunRefusal::Text(refusal)),
            picks: Vec::new(alloc),
        };
        (ran, RefusalForm::Line)
    }

    fn succeeds(&self, outcome: &Ran) -> bool {
        is_listed(outcome.outcome)
    }

    fn fault_of(&self, fault: RunFault) -> LiveFault {
        LiveFault::Run(fault)
    }
}

/// The outcome, the picks and the output of a program.
fn answer_live<A: Allocator + Copy + Send + Sync, T: Threads + Wait + Sync, G: Gate>(
    rt: &T,
    heaps: (Global, A),
    program: Program<A>,
    workers: &Workers<'_, G>,
) -> Result<(Ran, Vec<u8>), LiveFault>
    requires { IsWorkerCount workers.now.count }
    ensures given { IfOk result (λ r. IsProgramAnswer live_run (program_of program) r.0 r.1.items) }
    ensures fault { IfErr result (IsOfNoEnd live_run) }
{
    let (picks, output) = run_program(rt, heaps, program, workers)?;
    let (alloc, _) = heaps;
    let Ok(picks) = Vec::from_slice(alloc, &picks) else {
        return Err(OUT_OF_MEMORY);
    };
    let Ok(output) = Vec::from_slice(alloc, &output) else {
        return Err(OUT_OF_MEMORY);
    };
    let ran = Ran {
        outcome: Outcome::Listed,
        picks,
    };
    Ok((ran, output))
}

/// What reads the script of a run by workers. Its outcomes have their memory apart from the script.
#[derive(Clone, Copy)]
struct LiveReading {
    alloc: Global,
}

impl<A: Allocator + Copy> Job<A> for LiveReading {
    ghost use Rattle.tn_run.specs.Answers.{live_run};

    type Outcome = Ran;

    type Fault = LiveFault;

    ghost view = { λ job. live_run };

    ghost takes = { λ job picks. Unit {0} };

    fn picks(&self, alloc: A) -> Result<Vec<u32, A>, PicksFault> {
        Ok(Vec::new(alloc))
    }

    fn refusal_outcome(&self, _alloc: A, refusal: Refusal) -> (Ran, RefusalForm) {
        LiveRun.refusal_outcome(self.alloc, refusal)
    }

    fn succeeds(&self, outcome: &Ran) -> bool {
        is_listed(outcome.outcome)
    }

    fn fault_of(&self, fault: RunFault) -> LiveFault {
        LiveFault::Run(fault)
    }
}

/// The outcome of a refusal with a copy of its line.
fn refusal_in(alloc: Global, outcome: Ran, line: &[u8]) -> Result<(Ran, Vec<u8>), LiveFault>
    ensures same { IfOk result (λ r. (r.0 ≡ outcome) × (r.1.items ≡ line.now)) }
    ensures fault { IfErr result (IsOfNoEnd live_run) }
{
    match Vec::from_slice(alloc, line) {
        Ok(line) => Ok((outcome, line)),
        Err(_) => Err(OUT_OF_MEMORY),
    }
}

/// Runs the script that the reader holds by so many workers in the second memory: the outcome, the picks and the output
/// in the first.
fn prepare_within<A: Allocator + Copy + Send + Sync, R: Read, T: Threads + Wait + Sync, G: Gate>(
    rt: &T,
    heaps: (Global, A),
    reader: &mut Watched<R>,
    workers: &Workers<'_, G>,
) -> Result<(Ran, Vec<u8>), LiveFault>
    requires { IsWorkerCount workers.now.count }
    ensures { Prepares live_run R.remaining reader.old reader.new result }
{
    let (alloc, heap) = heaps;
    match read_script(heap, &LiveReading { alloc }, reader) {
        Ok(Reading::Accepted { program, .. }) => answer_live(rt, heaps, program, workers),
        Ok(Reading::Refused { outcome, text }) => refusal_in(alloc, outcome, &text),
        Err(fault) => Err(fault),
    }
}

/// Runs the script that the reader holds by so many workers, as `run_live`, and writes nothing: the outcome, the picks
/// and the output.
///
/// # Errors
///
/// Those of `run_live` but for a failed write.
pub fn prepare_live<R: Read, T: Threads + Wait + Sync, G: Gate>(
    rt: &T,
    alloc: Global,
    reader: &mut Watched<R>,
    workers: &Workers<'_, G>,
) -> Result<(Ran, Vec<u8>), LiveFault>
    requires { IsWorkerCount workers.now.count }
    ensures { Prepares live_run R.remaining reader.old reader.new result }
{
    let heap = WithinMemory::of(alloc, workers.memory);
    prepare_within(rt, (alloc, &heap), reader, workers)
}

/// Runs the script that the reader holds by so many workers, each of which takes turns side by side with
/// the others, and then in passes of all picks until nothing moves; and writes the output of the journal
/// that they made, or the line of the refusal, as `transact` says. Where no thread can be made, a worker's
/// turns are taken on the caller's.
///
/// # Errors
///
/// `Run` as `run` has it; `Pool` where a worker's step was answered a fault, or a worker was refused memory.
pub fn run_live<R: Read, W: Write, T: Threads + Wait + Sync, G: Gate>(
    rt: &T,
    alloc: Global,
    reader: &mut Watched<R>,
    writer: &mut Watched<W>,
    workers: &Workers<'_, G>,
) -> Result<Ran, LiveFault>
    requires count { IsWorkerCount workers.now.count }
    ensures { Meets live_run R.remaining reader.old reader.new W.contents writer.old writer.new result }
{
    let (ran, output) = prepare_live(rt, alloc, reader, workers)?;
    match write_output(writer, &output) {
        Ok(()) => Ok(ran),
        Err(fault) => Err(LiveFault::Run(fault)),
    }
}
