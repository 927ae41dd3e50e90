// The text of picks of a command.
ghost use Rattle.std.specs.Prelude.{◌≡◌, IfOk, OnOk};
ghost use Rattle.tn_text.specs.Watch.{has_failed};
ghost use Rattle.complete_workers.specs.Ends.{EndAlike, TellAlike, Knows};

use std::alloc::Allocator;
use std::io::Read;
use tn_run::RunFault;
use tn_text::Watched;

/// `tn_command::picks_over` has one answer where the readers tell their bytes: the text, and what is left of
/// them.
pub fn picks_over<A: Allocator, R: Read>(
    alloc: A,
    same_alloc: A,
    one: &mut Watched<R>,
    other: &mut Watched<R>,
) -> (Result<Vec<u8, A>, RunFault>, Result<Vec<u8, A>, RunFault>)
    requires reported { TellAlike R.remaining one.old other.old }
    requires failed { has_failed one.old ≡ has_failed other.old }
    ensures text { Knows R.remaining one.old → IfOk result.0 (λ v. IfOk result.1 (λ w. v.items ≡ w.items)) }
    ensures left { Knows R.remaining one.old → OnOk result.0 (OnOk result.1 (TellAlike R.remaining one.new other.new)) }
    ensures failed { EndAlike result.0 result.1 → has_failed one.new ≡ has_failed other.new }
{
    let first = tn_command::picks_over(alloc, one);
    let second = tn_command::picks_over(same_alloc, other);
    (first, second)
}
