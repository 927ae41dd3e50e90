// What the expressions of one clause are evaluated in.
ghost use Rattle.std.specs.Prelude.{◌≡◌, IfOk};
ghost use Rattle.tn_guard.specs.Views.{value_seen};

use std::alloc::{AllocError, Allocator};
use tn_action::EvalContext;
use tn_guard::Value;

/// `tn_action::EvalContext::caller` has one answer.
pub fn caller<'a, A: Allocator + Copy>(
    scene: &EvalContext<'a, '_, A>,
) -> (
    Result<Value<'a, A>, AllocError>,
    Result<Value<'a, A>, AllocError>,
)
    ensures { IfOk result.0 (λ v. IfOk result.1 (λ w. value_seen v ≡ value_seen w)) }
{
    (scene.caller(), scene.caller())
}
