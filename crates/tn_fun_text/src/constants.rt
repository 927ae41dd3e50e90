// Operators of constants, which are computed before a fun is translated.
ghost use Rattle.std.specs.Prelude.{◌≡◌, Bool, Option, Some, None};
ghost use Rattle.def_term.specs.Order.{tree_cmp};
ghost use Rattle.def_term.specs.Tree.{Tree};
ghost use Rattle.def_fun.specs.Constants.{gives_any, gives_any_truth, if_integers, if_integer, of_two_terms};
ghost use Rattle.def_fun.specs.Constants.{truth_value, of_two_truths, if_truths, if_negation, or_computed};
ghost use Rattle.def_fun.specs.Constants.{computed_between, computed_before};
ghost use Rattle.tn_term.specs.Views.{tree_of};
ghost use Rattle.tn_fun.specs.Tokens.{operator_seen};
ghost use Rattle.tn_fun_text.specs.Constants.{fun_computation_seen};

use crate::integers::{Computation, before_integer, between_integers};
use std::alloc::Allocator;
use std::cmp::Ordering;
use tn_fun::Operator;
use tn_term::Term;

/// An operator of two integers.
fn of_integers<A: Allocator>(operator: Operator, left: &Term<A>, right: &Term<A>) -> Computation
    ensures { fun_computation_seen result
        ≡ gives_any (if_integers (operator_seen operator) (tree_of left.now) (tree_of right.now)) }
{
    match (left, right) {
        (Term::Int(a), Term::Int(b)) => between_integers(operator, *a, *b),
        _ => Computation::Nothing,
    }
}

/// An operator of one integer.
fn of_integer<A: Allocator>(operator: Operator, operand: &Term<A>) -> Computation
    ensures { fun_computation_seen result ≡ gives_any (if_integer (operator_seen operator) (tree_of operand.now)) }
{
    match operand {
        Term::Int(a) => before_integer(operator, *a),
        _ => Computation::Nothing,
    }
}

/// What a comparison says of two terms in that order.
fn comparison(operator: Operator, order: Ordering) -> Option<bool>
    ensures { (t u : Tree) → order ≡ tree_cmp t u → result ≡ of_two_terms (operator_seen operator) t u }
{
    match operator {
        Operator::Equal | Operator::ExactlyEqual => Some(order.is_eq()),
        Operator::NotEqual | Operator::ExactlyNotEqual => Some(!order.is_eq()),
        Operator::Less => Some(order.is_lt()),
        Operator::LessOrEqual => Some(order.is_le()),
        Operator::Greater => Some(order.is_gt()),
        Operator::GreaterOrEqual => Some(order.is_ge()),
        _ => None,
    }
}

/// `true` or `false`, where there is one.
fn truth(value: Option<bool>) -> Computation
    ensures { fun_computation_seen result ≡ gives_any_truth value }
{
    match value {
        Some(b) => Computation::Truth(b),
        None => Computation::Nothing,
    }
}

/// The truth that a term is.
fn truth_of<A: Allocator>(term: &Term<A>) -> Option<bool>
    ensures { result ≡ truth_value (tree_of term.now) }
{
    if term.is_word("true") {
        Some(true)
    } else if term.is_word("false") {
        Some(false)
    } else {
        None
    }
}

/// An operator of two truths.
fn of_truths(operator: Operator, a: bool, b: bool) -> Option<bool>
    ensures { result ≡ of_two_truths (operator_seen operator) a b }
{
    match operator {
        Operator::AllOf => Some(a && b),
        Operator::OneOf => Some(a || b),
        Operator::JustOneOf => Some(if a { !b } else { b }),
        _ => None,
    }
}

/// An operator of two terms, where both are truths.
fn between_truths<A: Allocator>(operator: Operator, left: &Term<A>, right: &Term<A>) -> Option<bool>
    ensures { result ≡ if_truths (operator_seen operator)
        (truth_value (tree_of left.now)) (truth_value (tree_of right.now)) }
{
    match (truth_of(left), truth_of(right)) {
        (Some(a), Some(b)) => of_truths(operator, a, b),
        _ => None,
    }
}

/// `not` of a term that is a truth.
fn denial<A: Allocator>(operator: Operator, operand: &Term<A>) -> Option<bool>
    ensures { result ≡ if_negation (operator_seen operator) (truth_value (tree_of operand.now)) }
{
    match (operator, truth_of(operand)) {
        (Operator::Negation, Some(a)) => Some(!a),
        _ => None,
    }
}

/// The first that gives something.
fn or_else(first: Computation, second: Computation) -> Computation
    ensures { fun_computation_seen result ≡ or_computed (fun_computation_seen first) (fun_computation_seen second) }
{
    match first {
        Computation::Nothing => second,
        Computation::Integer(n) => Computation::Integer(n),
        Computation::Truth(b) => Computation::Truth(b),
        Computation::TooLarge => Computation::TooLarge,
    }
}

/// What an operator between two constants gives.
pub fn between_constants<A: Allocator>(
    operator: Operator,
    left: &Term<A>,
    right: &Term<A>,
) -> Computation
    ensures { fun_computation_seen result
        ≡ computed_between (operator_seen operator) (tree_of left.now) (tree_of right.now) }
{
    let integers = of_integers(operator, left, right);
    let order = truth(comparison(operator, left.order(right)));
    let truths = truth(between_truths(operator, left, right));
    or_else(integers, or_else(order, truths))
}

/// What an operator before a constant gives.
pub fn before_constant<A: Allocator>(operator: Operator, operand: &Term<A>) -> Computation
    ensures { fun_computation_seen result ≡ computed_before (operator_seen operator) (tree_of operand.now) }
{
    let integer = of_integer(operator, operand);
    let truths = truth(denial(operator, operand));
    or_else(integer, truths)
}
