// The forms of a text.
ghost use Rattle.std.specs.Prelude.{◌≡◌, map};
ghost use Rattle.tn_script.specs.Views.{form_of};
ghost use Rattle.tn_script.specs.Answers.{refusal_seen};
ghost use Rattle.complete_scripts.specs.Agreement.{Agree, answer_of};

use std::alloc::Allocator;
use tn_script::{Form, ScriptFault};

/// `tn_script::forms` has one answer.
pub fn forms<A: Allocator + Copy>(
    alloc: A,
    one: &[u8],
    other: &[u8],
) -> (
    Result<Vec<Form<A>, A>, ScriptFault>,
    Result<Vec<Form<A>, A>, ScriptFault>,
)
    requires { one.now ≡ other.now }
    ensures { let told = answer_of (λ v. map form_of v.items) refusal_seen in Agree (told result.0) (told result.1) }
{
    let first = tn_script::forms(alloc, one);
    let second = tn_script::forms(alloc, other);
    (first, second)
}
