// Reading a text, and writing an output.
ghost use Rattle.std.specs.Prelude.{◌≡◌, IfOk, OnOk};
ghost use Rattle.tn_text.specs.Watch.{has_failed, is_flushed};
ghost use Rattle.complete_workers.specs.Ends.{EndAlike, TellAlike, Knows, WriteAlike};

use std::alloc::Allocator;
use std::io::{Read, Write};
use tn_run::RunFault;
use tn_text::Watched;

/// `tn_run::read_text` has one answer where the readers tell their bytes: the text, and what is left of them.
pub fn read_text<A: Allocator, R: Read>(
    alloc: A,
    same_alloc: A,
    one: &mut Watched<R>,
    other: &mut Watched<R>,
) -> (Result<Vec<u8, A>, RunFault>, Result<Vec<u8, A>, RunFault>)
    requires reported { TellAlike R.remaining one.old other.old }
    requires failed { has_failed one.old ≡ has_failed other.old }
    ensures text { Knows R.remaining one.old → IfOk result.0 (λ v. IfOk result.1 (λ w. v.items ≡ w.items)) }
    ensures left { Knows R.remaining one.old → OnOk result.0 (OnOk result.1 (TellAlike R.remaining one.new other.new)) }
    ensures failed { EndAlike result.0 result.1 → has_failed one.new ≡ has_failed other.new }
{
    let first = tn_run::read_text(alloc, one);
    let second = tn_run::read_text(same_alloc, other);
    (first, second)
}

/// `tn_run::write_output` has one answer but for whether a write fails, and after how many bytes: what the
/// writers tell afterwards goes by that.
pub fn write_output<W: Write>(
    one: &mut Watched<W>,
    other: &mut Watched<W>,
    output: &[u8],
    same_output: &[u8],
) -> (Result<(), RunFault>, Result<(), RunFault>)
    requires outputs { output.now ≡ same_output.now }
    requires reported { TellAlike W.contents one.old other.old }
    requires failed { has_failed one.old ≡ has_failed other.old }
    ensures reported { WriteAlike W.contents one.old one.new other.new result.0 result.1 }
    ensures failed { EndAlike result.0 result.1 → has_failed one.new ≡ has_failed other.new }
    ensures flushed { OnOk result.0 (OnOk result.1 (is_flushed one.new ≡ is_flushed other.new)) }
{
    let first = tn_run::write_output(one, output);
    let second = tn_run::write_output(other, same_output);
    (first, second)
}
