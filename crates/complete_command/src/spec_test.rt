// The test of one specification.
ghost use Rattle.std.specs.Prelude.{◌≡◌};
ghost use Rattle.tn_text.specs.Watch.{has_failed};
ghost use Rattle.complete_workers.specs.Ends.{EndAlike, SeenAlike};
ghost use Rattle.complete_command.specs.Jobs.{GainAlike};
ghost use Rattle.complete_command.specs.SpecTests.{AreTestedAlike, SpecTestsFlushAlike, SpecTestsHaveOneStatus};

use std::alloc::Allocator;
use std::io::Write;
use tn_command::{JobEnd, SpecTestRunFault};
use tn_formats::Format;
use tn_text::Watched;
use tn_verdict::SpecTestInput;

/// `tn_command::test_spec_over` has one answer, but for which refusal of memory is answered, and for whether a
/// write fails, and after how many bytes: what is written and remembered goes by that.
pub fn test_spec_over<A: Allocator + Copy, W: Write>(
    alloc: A,
    out: &mut Watched<W>,
    same_out: &mut Watched<W>,
    question: &SpecTestInput<'_>,
) -> (
    JobEnd<(), SpecTestRunFault<A>>,
    JobEnd<(), SpecTestRunFault<A>>,
)
    requires { SeenAlike W.contents out.old same_out.old }
    ensures answer { AreTestedAlike result.0.answer result.1.answer }
    ensures status { SpecTestsHaveOneStatus result.0 result.1 }
    ensures written { GainAlike W.contents out.old out.new same_out.new result.0 result.1 }
    ensures writer { EndAlike result.0.answer result.1.answer → has_failed out.new ≡ has_failed same_out.new }
    ensures flushed { SpecTestsFlushAlike out.new same_out.new result.0 result.1 }
{
    let first = tn_command::test_spec_over(alloc, out, question);
    let second = tn_command::test_spec_over(alloc, same_out, question);
    (first, second)
}

/// `tn_command::test_spec_in_format_over` has one answer, but for which refusal of memory is answered, and for whether
/// a write fails, and after how many bytes: what is written and remembered goes by that.
pub fn test_spec_in_format_over<A: Allocator + Copy, W: Write>(
    alloc: A,
    out: &mut Watched<W>,
    same_out: &mut Watched<W>,
    question: &SpecTestInput<'_>,
    format: Format,
) -> (
    JobEnd<(), SpecTestRunFault<A>>,
    JobEnd<(), SpecTestRunFault<A>>,
)
    requires { SeenAlike W.contents out.old same_out.old }
    ensures answer { AreTestedAlike result.0.answer result.1.answer }
    ensures status { SpecTestsHaveOneStatus result.0 result.1 }
    ensures written { GainAlike W.contents out.old out.new same_out.new result.0 result.1 }
    ensures writer { EndAlike result.0.answer result.1.answer → has_failed out.new ≡ has_failed same_out.new }
    ensures flushed { SpecTestsFlushAlike out.new same_out.new result.0 result.1 }
{
    let first = tn_command::test_spec_in_format_over(alloc, out, question, format);
    let second = tn_command::test_spec_in_format_over(alloc, same_out, question, format);
    (first, second)
}

/// `tn_command::test_headed_spec_over` has one answer, but for which refusal of memory is answered, and for whether a
/// write fails, and after how many bytes: what is written and remembered goes by that.
pub fn test_headed_spec_over<A: Allocator + Copy, W: Write>(
    alloc: A,
    out: &mut Watched<W>,
    same_out: &mut Watched<W>,
    question: &SpecTestInput<'_>,
    format: Option<Format>,
) -> (
    JobEnd<(), SpecTestRunFault<A>>,
    JobEnd<(), SpecTestRunFault<A>>,
)
    requires { SeenAlike W.contents out.old same_out.old }
    ensures answer { AreTestedAlike result.0.answer result.1.answer }
    ensures status { SpecTestsHaveOneStatus result.0 result.1 }
    ensures written { GainAlike W.contents out.old out.new same_out.new result.0 result.1 }
    ensures writer { EndAlike result.0.answer result.1.answer → has_failed out.new ≡ has_failed same_out.new }
    ensures flushed { SpecTestsFlushAlike out.new same_out.new result.0 result.1 }
{
    let first = tn_command::test_headed_spec_over(alloc, out, question, format);
    let second = tn_command::test_headed_spec_over(alloc, same_out, question, format);
    (first, second)
}
