// The step or the command for which a form has no shape or breaks a rule.
ghost use Rattle.std.specs.Prelude.{◌≡◌, IfOk, map};
ghost use Rattle.std.specs.Option.{option_map};
ghost use Rattle.tn_term.specs.Views.{tree_of};
ghost use Rattle.tn_script.specs.Items.{form_item_of};
ghost use Rattle.tn_script.specs.Views.{form_of};

use std::alloc::{AllocError, Allocator};
use tn_program::RuleFault;
use tn_script::{Form, FormItem};
use tn_term::Term;

/// `tn_script::shapeless_item` has one answer.
pub fn shapeless_item<A: Allocator + Copy>(
    alloc: A,
    one: Term<A>,
    other: Term<A>,
) -> (
    Result<Option<FormItem>, AllocError>,
    Result<Option<FormItem>, AllocError>,
)
    requires { tree_of one ≡ tree_of other }
    ensures { IfOk result.0 (λ x. IfOk result.1 (λ y. option_map form_item_of x ≡ option_map form_item_of y)) }
{
    let first = tn_script::shapeless_item(alloc, one);
    let second = tn_script::shapeless_item(alloc, other);
    (first, second)
}

/// `tn_program::breaking_item` has one answer.
pub fn breaking_item<A: Allocator + Copy>(
    alloc: A,
    one: &[Form<A>],
    other: &[Form<A>],
    fault: RuleFault,
) -> (
    Result<Option<FormItem>, AllocError>,
    Result<Option<FormItem>, AllocError>,
)
    requires { map form_of one.now ≡ map form_of other.now }
    ensures { IfOk result.0 (λ x. IfOk result.1 (λ y. option_map form_item_of x ≡ option_map form_item_of y)) }
{
    let first = tn_program::breaking_item(alloc, one, fault);
    let second = tn_program::breaking_item(alloc, other, fault);
    (first, second)
}
