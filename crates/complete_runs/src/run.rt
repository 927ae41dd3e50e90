// A run, with what looks on.
ghost use Rattle.std.specs.Prelude.{◌≡◌, ℕ, List, [], ◌++◌, min, IfOk, OnOk};
ghost use Rattle.def_script.specs.Program as definition;
ghost use Rattle.def_run.specs.Run.{JOURNAL};
ghost use Rattle.tn_program.specs.Views.{program_of};
ghost use Rattle.tn_trace.specs.Runs.{IsRun};
ghost use Rattle.tn_trace.specs.Follows.{Follows};
ghost use Rattle.tn_trace.specs.Recorders.{HasRecorded};
ghost use Rattle.complete_runs.specs.ObservedRuns.{AreRuns, OneMoreAlike};

use std::alloc::{AllocError, Allocator};
use tn_node::Node;
use tn_program::Program;
use tn_trace::{Observer, PickOutcome, Recorder, Run, SharedSink};

/// `tn_trace::Run::new` has one answer but for what looks on, of which `sees` is known.
pub fn new<A: Allocator + Copy, O: Observer<A> + Drop>(
    alloc: A,
    program: &Program<A>,
    one: O,
    other: O,
    limit: usize,
) -> (Result<Run<A, O>, AllocError>, Result<Run<A, O>, AllocError>)
    requires one { O.sees one (program_of program.now) [] }
    requires other { O.sees other (program_of program.now) [] }
    ensures { IfOk result.0 (λ r. IfOk result.1 (AreRuns O.sees (program_of program.now) (min limit JOURNAL) [] r)) }
{
    let first = Run::new(alloc, program, one, limit);
    let second = Run::new(alloc, program, other, limit);
    (first, second)
}

/// `tn_trace::Run::step` has one answer: what the pick comes to. The runs afterwards are one but for what looks on,
/// of which `sees` is known.
pub fn step<A: Allocator + Copy, O: Observer<A> + Drop>(
    program: &Program<A>,
    one: &mut Run<A, O>,
    other: &mut Run<A, O>,
    pick: u32,
    first: &mut O::Output,
    second: &mut O::Output,
) -> (
    Result<PickOutcome, AllocError>,
    Result<PickOutcome, AllocError>,
)
    ghost at: { ℕ × List ℕ }
    requires one { IsRun O.sees (program_of program.now) at.0 at.1 one.old }
    requires other { IsRun O.sees (program_of program.now) at.0 at.1 other.old }
    ensures { IfOk result.0 (λ a. IfOk result.1
        (OneMoreAlike O.sees (program_of program.now) at pick one.new other.new a)) }
{
    let came = one.step(program, pick, first);
    let came_again = other.step(program, pick, second);
    (came, came_again)
}

/// `tn_trace::Run::take_all` leaves one run but for what looks on, of which `sees` is known.
pub fn take_all<A: Allocator + Copy, O: Observer<A> + Drop>(
    program: &Program<A>,
    one: &mut Run<A, O>,
    other: &mut Run<A, O>,
    picks: &[u32],
    first: &mut O::Output,
    second: &mut O::Output,
) -> (Result<(), AllocError>, Result<(), AllocError>)
    ghost at: { ℕ × List ℕ }
    requires one { Follows O.sees (program_of program.now) at.0 at.1 one.old }
    requires other { Follows O.sees (program_of program.now) at.0 at.1 other.old }
    ensures one { OnOk result.0 (Follows O.sees (program_of program.now) at.0 (at.1 ++ picks.now) one.new) }
    ensures other { OnOk result.1 (Follows O.sees (program_of program.now) at.0 (at.1 ++ picks.now) other.new) }
{
    let done = one.take_all(program, picks, first);
    let done_again = other.take_all(program, picks, second);
    (done, done_again)
}

/// `tn_trace::Run::node` has one answer for one node.
pub fn node<'a, A: Allocator + Copy, O: Observer<A> + Drop>(
    one: &'a Run<A, O>,
    other: &'a Run<A, O>,
) -> (&'a Node<A>, &'a Node<A>)
    requires { one.now.node ≡ other.now.node }
    ensures { result.0.now ≡ result.1.now }
{
    (one.node(), other.node())
}

/// `tn_trace::Run::observer` has one answer for one observer.
pub fn observer<'a, A: Allocator + Copy, O: Observer<A> + Drop>(
    one: &'a Run<A, O>,
    other: &'a Run<A, O>,
) -> (&'a O, &'a O)
    requires { one.now.observer ≡ other.now.observer }
    ensures { result.0.now ≡ result.1.now }
{
    (one.observer(), other.observer())
}

/// `tn_trace::Run::journal` has one answer for one journal.
pub fn journal<'a, A: Allocator + Copy, O: Observer<A> + Drop>(
    one: &'a Run<A, O>,
    other: &'a Run<A, O>,
) -> (&'a [u32], &'a [u32])
    requires { one.now.journal.items ≡ other.now.journal.items }
    ensures { result.0.now ≡ result.1.now }
{
    (one.journal(), other.journal())
}

/// `tn_trace::Run::share` has one answer: both copies are the program's run by the same picks.
pub fn share<A: Allocator + Copy, K: SharedSink<A> + Drop>(
    one: &Run<A, Recorder<A, K>>,
    other: &Run<A, Recorder<A, K>>,
) -> (
    Result<Run<A, Recorder<A, K>>, AllocError>,
    Result<Run<A, Recorder<A, K>>, AllocError>,
)
    ghost at: { definition.Program × ℕ × List ℕ }
    requires one { IsRun (HasRecorded K.keeps) at.0 at.1 at.2 one.now }
    requires other { IsRun (HasRecorded K.keeps) at.0 at.1 at.2 other.now }
    ensures { IfOk result.0 (λ r. IfOk result.1 (AreRuns (HasRecorded K.keeps) at.0 at.1 at.2 r)) }
{
    let first = one.share();
    let second = other.share();
    (first, second)
}

/// `tn_trace::Run::into_journal` has one answer for one journal.
pub fn into_journal<A: Allocator + Copy, O: Observer<A> + Drop>(
    one: Run<A, O>,
    other: Run<A, O>,
) -> (Vec<u32, A>, Vec<u32, A>)
    requires { one.journal.items ≡ other.journal.items }
    ensures { result.0.items ≡ result.1.items }
{
    let first = one.into_journal();
    let second = other.into_journal();
    (first, second)
}

/// `tn_trace::most_moves` has one answer.
pub fn most_moves(limit: usize) -> (usize, usize)
    ensures { result.0 ≡ result.1 }
{
    (tn_trace::most_moves(limit), tn_trace::most_moves(limit))
}

/// `tn_trace::pass_picks` has one answer.
pub fn pass_picks<A: Allocator + Copy>(
    alloc: A,
) -> (
    Result<Vec<u32, A>, AllocError>,
    Result<Vec<u32, A>, AllocError>,
)
    ensures { IfOk result.0 (λ v. IfOk result.1 (λ w. v.items ≡ w.items)) }
{
    (tn_trace::pass_picks(alloc), tn_trace::pass_picks(alloc))
}
