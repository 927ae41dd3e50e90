// The transcript of a run.
ghost use Rattle.std.specs.Prelude.{◌≡◌, ℕ, List};
ghost use Rattle.std.specs.Option.{option_map};
ghost use Rattle.def_script.specs.Program as definition;
ghost use Rattle.tn_trace.specs.Items.{AreTexts};
ghost use Rattle.tn_trace.specs.Recorders.{HasRecorded};
ghost use Rattle.tn_trace.specs.Runs.{IsRun};

use std::alloc::Allocator;
use tn_trace::{Lines, Recorder, Run, Transcript};

/// `tn_trace::Transcript::of_run` has one answer for two runs by the same picks.
pub fn of_run<A: Allocator + Copy>(
    one: Run<A, Recorder<A, Lines<A>>>,
    other: Run<A, Recorder<A, Lines<A>>>,
) -> (Transcript<A>, Transcript<A>)
    ghost at: { definition.Program × ℕ × List ℕ }
    requires one { IsRun (HasRecorded AreTexts) at.0 at.1 at.2 one }
    requires other { IsRun (HasRecorded AreTexts) at.0 at.1 at.2 other }
    ensures { result.0 ≡ result.1 }
{
    let first = Transcript::of_run(one);
    let second = Transcript::of_run(other);
    (first, second)
}

/// `tn_trace::Transcript::lines` has one answer.
pub fn lines<'a, A: Allocator + Copy>(
    one: &'a Transcript<A>,
    other: &'a Transcript<A>,
    place: usize,
) -> (Option<&'a [u8]>, Option<&'a [u8]>)
    requires { one.now ≡ other.now }
    ensures { option_map (λ v. v.now) result.0 ≡ option_map (λ v. v.now) result.1 }
{
    (one.lines(place), other.lines(place))
}

/// `tn_trace::Transcript::take_lines` has one answer, and leaves one transcript.
pub fn take_lines<A: Allocator + Copy>(
    one: &mut Transcript<A>,
    other: &mut Transcript<A>,
    place: usize,
) -> (Option<Vec<u8, A>>, Option<Vec<u8, A>>)
    requires { one.old ≡ other.old }
    ensures lines { option_map (λ v. v.items) result.0 ≡ option_map (λ v. v.items) result.1 }
    ensures left { one.new ≡ other.new }
{
    let first = one.take_lines(place);
    let second = other.take_lines(place);
    (first, second)
}

/// `tn_trace::Transcript::replies` has one answer.
pub fn replies<'a, A: Allocator + Copy>(
    one: &'a Transcript<A>,
    other: &'a Transcript<A>,
) -> (&'a [u8], &'a [u8])
    requires { one.now ≡ other.now }
    ensures { result.0.now ≡ result.1.now }
{
    (one.replies(), other.replies())
}

/// `tn_trace::Transcript::journal` has one answer.
pub fn journal<'a, A: Allocator + Copy>(
    one: &'a Transcript<A>,
    other: &'a Transcript<A>,
) -> (&'a [u32], &'a [u32])
    requires { one.now ≡ other.now }
    ensures { result.0.now ≡ result.1.now }
{
    (one.journal(), other.journal())
}
