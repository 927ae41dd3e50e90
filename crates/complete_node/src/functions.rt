// The functions of a program, as the node has them.
ghost use Rattle.std.specs.Prelude.{◌≡◌, IfOk};
ghost use Rattle.std.specs.Arc.{arc_value};
ghost use Rattle.tn_script.specs.Views.{functions_of};
ghost use Rattle.tn_process.specs.Functions.{functions_in};

use std::alloc::{AllocError, Allocator};
use std::sync::Arc;
use tn_process::Functions;
use tn_script::Function;

/// `tn_process::Functions::new` has one answer.
pub fn new<A: Allocator + Copy>(
    alloc: A,
    one: Arc<Vec<Function<A>, A>, A>,
    other: Arc<Vec<Function<A>, A>, A>,
) -> (
    Result<Functions<A>, AllocError>,
    Result<Functions<A>, AllocError>,
)
    requires { functions_of (arc_value one).items ≡ functions_of (arc_value other).items }
    ensures { IfOk result.0 (λ x. IfOk result.1 (λ y. functions_in x ≡ functions_in y)) }
{
    let first = Functions::new(alloc, one);
    let second = Functions::new(alloc, other);
    (first, second)
}

/// `tn_process::Functions::share` has one answer.
pub fn share<A: Allocator + Copy>(
    one: &Functions<A>,
    other: &Functions<A>,
) -> (
    Result<Functions<A>, AllocError>,
    Result<Functions<A>, AllocError>,
)
    requires { functions_in one.now ≡ functions_in other.now }
    ensures { IfOk result.0 (λ x. IfOk result.1 (λ y. functions_in x ≡ functions_in y)) }
{
    (one.share(), other.share())
}

/// `tn_process::Functions::as_slice` has one answer.
pub fn as_slice<'a, A: Allocator + Copy>(
    one: &'a Functions<A>,
    other: &'a Functions<A>,
) -> (&'a [Function<A>], &'a [Function<A>])
    requires { functions_in one.now ≡ functions_in other.now }
    ensures { functions_of result.0.now ≡ functions_of result.1.now }
{
    (one.as_slice(), other.as_slice())
}
