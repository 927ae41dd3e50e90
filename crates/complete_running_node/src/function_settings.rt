// The settings of functions that a command disables on a running node.
ghost use Rattle.std.specs.Prelude.{◌≡◌, IfOk};
ghost use Rattle.tn_term.specs.Views.{tree_of};
ghost use Rattle.tn_script.specs.Views.{function_of};
ghost use Rattle.tn_index.specs.Views.{function_pattern_seen};
ghost use Rattle.tn_session.specs.Looks.{look_seen};

use std::alloc::{AllocError, Allocator};
use tn_index::FunctionPattern;
use tn_script::Function;
use tn_session::Look;
use tn_term::Term;

/// `tn_running_node::is_empty_list` has one answer.
pub fn is_empty_list<A: Allocator>(one: &Term<A>, other: &Term<A>) -> (bool, bool)
    requires { tree_of one.now ≡ tree_of other.now }
    ensures { result.0 ≡ result.1 }
{
    (
        tn_running_node::is_empty_list(one),
        tn_running_node::is_empty_list(other),
    )
}

/// `tn_running_node::is_on_where_read` has one answer.
pub fn is_on_where_read<A: Allocator + Copy>(
    alloc: A,
    one: &Term<A>,
    other: &Term<A>,
) -> (
    Result<Option<bool>, AllocError>,
    Result<Option<bool>, AllocError>,
)
    requires { tree_of one.now ≡ tree_of other.now }
    ensures { IfOk result.0 (λ a. IfOk result.1 (λ b. a ≡ b)) }
{
    (
        tn_running_node::is_on_where_read(alloc, one),
        tn_running_node::is_on_where_read(alloc, other),
    )
}

/// `tn_running_node::is_covered` has one answer.
pub fn is_covered<A: Allocator>(
    covered: &FunctionPattern<A>,
    again: &FunctionPattern<A>,
    one: &Function<A>,
    other: &Function<A>,
) -> (bool, bool)
    requires patterns { function_pattern_seen covered.now ≡ function_pattern_seen again.now }
    requires functions { function_of one.now ≡ function_of other.now }
    ensures { result.0 ≡ result.1 }
{
    (
        tn_running_node::is_covered(covered, one),
        tn_running_node::is_covered(again, other),
    )
}

/// `tn_running_node::is_among` has one answer.
pub fn is_among<A: Allocator>(
    covered: &FunctionPattern<A>,
    again: &FunctionPattern<A>,
    one: &Function<A>,
    other: &Function<A>,
    local: bool,
) -> (bool, bool)
    requires patterns { function_pattern_seen covered.now ≡ function_pattern_seen again.now }
    requires functions { function_of one.now ≡ function_of other.now }
    ensures { result.0 ≡ result.1 }
{
    (
        tn_running_node::is_among(covered, one, local),
        tn_running_node::is_among(again, other, local),
    )
}

/// `tn_running_node::is_set` has one answer.
pub fn is_set<A: Allocator + Copy>(
    alloc: A,
    look: &Look<'_, A>,
    again: &Look<'_, A>,
    one: &Function<A>,
    other: &Function<A>,
    local: bool,
) -> (Result<bool, AllocError>, Result<bool, AllocError>)
    requires looks { look_seen look.now ≡ look_seen again.now }
    requires functions { function_of one.now ≡ function_of other.now }
    ensures { IfOk result.0 (λ a. IfOk result.1 (λ b. a ≡ b)) }
{
    (
        tn_running_node::is_set(alloc, look, one, local),
        tn_running_node::is_set(alloc, again, other, local),
    )
}
