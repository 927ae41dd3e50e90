// Heads as terms.
ghost use Rattle.std.specs.Prelude.{◌≡◌, ℕ, List, [], IfOk, IfSome};
ghost use Rattle.std.specs.Option.{option_map};
ghost use Rattle.std.specs.Str.{bytes_eq};
ghost use Rattle.def_fun.specs.Trees.{both, first_byte as first_byte_of};
ghost use Rattle.def_fun.specs.Variables.{name_of_variable, names_of};
ghost use Rattle.def_fun.specs.Translation.{head_term as term_of_head};
ghost use Rattle.tn_fun.specs.Trees.{token_name, fun_expr_seen};
ghost use Rattle.tn_fun.specs.Clauses.{fun_head_seen};
ghost use Rattle.tn_translation.specs.Names.{clause_names_seen, variables_of};
ghost use Rattle.tn_translation.specs.Specifications.{GivesHead, matched_names, head_part_term};

use crate::fault::FunFault;
use crate::names::ClauseNames;
use crate::pattern::pattern_term;
use crate::tails::within_depth;
use std::alloc::{AllocError, Allocator};
use tn_fun::{Expr, Head, Token, first_byte, name_of};
use tn_term::Term;

/// The deepest term of a head: a clause is two levels deeper.
const MAX_DEPTH: u8 = 30;

/// The term of a head, and the names that it binds.
#[derive(Drop)]
pub struct TranslatedHead<A: Allocator> {
    pub names: ClauseNames<A>,
    pub term: Term<A>,
}

/// The token of a variable.
fn variable_of<A: Allocator>(expr: &Expr<A>) -> Option<Token>
    ensures name { (text : List ℕ) → option_map (token_name text) result
        ≡ name_of_variable (fun_expr_seen text expr.now) }
    ensures place { (text : List ℕ) → IfSome result (λ v. v.from ≡ first_byte_of (fun_expr_seen text expr.now)) }
{
    match expr {
        Expr::Variable(token) => Some(*token),
        _ => None,
    }
}

/// The names of a clause before its head is read.
fn names_with<A: Allocator + Copy>(
    alloc: A,
    bytes: &[u8],
    whole: Option<Token>,
) -> Result<ClauseNames<A>, AllocError>
    ensures { IfOk result (λ c. clause_names_seen c ≡ matched_names bytes.now whole []) }
{
    let whole = match whole {
        Some(token) => Some(name_of(alloc, bytes, token)?),
        None => None,
    };
    Ok(ClauseNames {
        whole,
        numbers: Vec::new(alloc),
    })
}

/// The term of the part of a head that the arguments are matched with, and the names that it binds.
fn matched_head<A: Allocator + Copy>(
    alloc: A,
    bytes: &[u8],
    whole: Option<Token>,
    at: usize,
    part: &Expr<A>,
) -> Result<TranslatedHead<A>, FunFault>
    ensures { GivesHead bytes.now result (head_part_term at (fun_expr_seen bytes.now part.now)
        (matched_names bytes.now whole (variables_of bytes.now part.now)))
        (matched_names bytes.now whole (variables_of bytes.now part.now)) }
{
    let mut names = names_with(alloc, bytes, whole)?;
    let whole_term = pattern_term(alloc, bytes, &mut names, part)?;
    let term = within_depth(MAX_DEPTH, at, whole_term)?;
    Ok(TranslatedHead { names, term })
}

/// Whether two tokens spell the same name.
fn is_same_name<A: Allocator + Copy>(
    alloc: A,
    bytes: &[u8],
    one: Token,
    other: Token,
) -> Result<bool, AllocError>
    ensures { IfOk result (λ b. b ≡ bytes_eq (token_name bytes.now one) (token_name bytes.now other)) }
{
    let name = name_of(alloc, bytes, one)?;
    let second = name_of(alloc, bytes, other)?;
    Ok(name.as_slice() == second.as_slice())
}

/// The term of a head of two parts, of which one may be the name of the whole.
fn head_of_two<A: Allocator + Copy>(
    alloc: A,
    bytes: &[u8],
    first: &Expr<A>,
    second: &Expr<A>,
) -> Result<TranslatedHead<A>, FunFault>
    ensures { GivesHead bytes.now result
        (term_of_head (both (fun_expr_seen bytes.now first.now) (fun_expr_seen bytes.now second.now)))
        (names_of (both (fun_expr_seen bytes.now first.now) (fun_expr_seen bytes.now second.now))) }
{
    let at = first_byte(first);
    match (variable_of(first), variable_of(second)) {
        (Some(one), Some(other)) => {
            if is_same_name(alloc, bytes, one, other)? {
                return Err(FunFault::WholeHead(other));
            }
            matched_head(alloc, bytes, Some(one), at, second)
        }
        (Some(one), None) => matched_head(alloc, bytes, Some(one), at, second),
        (None, whole) => matched_head(alloc, bytes, whole, at, first),
    }
}

/// The term of a head, and the names that it binds.
pub fn head_term<A: Allocator + Copy>(
    alloc: A,
    bytes: &[u8],
    head: &Head<A>,
) -> Result<TranslatedHead<A>, FunFault>
    ensures { GivesHead bytes.now result (term_of_head (fun_head_seen bytes.now head.now))
        (names_of (fun_head_seen bytes.now head.now)) }
{
    match head {
        Head::Alone(part) => matched_head(alloc, bytes, None, first_byte(part), part),
        Head::Both(first, second) => head_of_two(alloc, bytes, first, second),
    }
}
