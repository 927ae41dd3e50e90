// The names of a head's variables.
ghost use Rattle.std.specs.Prelude.{◌≡◌, ◌||◌, ℕ, List, [], OnOk, IfOk};
ghost use Rattle.std.specs.Option.{option_map, option_to_list};
ghost use Rattle.std.specs.Str.{bytes_eq};
ghost use Rattle.def_term.specs.Text.{is_among};
ghost use Rattle.def_fun.specs.Variables.{ANY, is_of_whole, matched_part, name_of_variable, name_of_whole, names_of};
ghost use Rattle.def_fun.specs.Variables.{with_name, with_names};
ghost use Rattle.tn_fun.specs.Trees.{token_name, fun_expr_seen};
ghost use Rattle.tn_fun.specs.Clauses.{fun_head_seen};
ghost use Rattle.tn_fun_words.specs.Views.{head_names_seen, name_list_seen};

use crate::parts::put_parts;
use std::alloc::{AllocError, Allocator};
use tn_fun::{Expr, Head, Token, name_of};

/// The name of the whole, where there is one, and the names with numbers from 1 in their order.
#[derive(Drop)]
pub struct Names<A: Allocator> {
    pub whole: Option<Vec<u8, A>>,
    pub numbers: Vec<Vec<u8, A>, A>,
}

/// The token of a variable.
pub fn variable_of<A: Allocator>(expr: &Expr<A>) -> Option<Token>
    ensures { (text : List ℕ) → option_map (token_name text) result
        ≡ name_of_variable (fun_expr_seen text expr.now) }
{
    match expr {
        Expr::Variable(token) => Some(*token),
        _ => None,
    }
}

/// The token of the name of the whole.
fn whole_of<A: Allocator>(head: &Head<A>) -> Option<Token>
    ensures { (text : List ℕ) → option_map (token_name text) result
        ≡ name_of_whole (fun_head_seen text head.now) }
{
    match head {
        Head::Alone(_) => None,
        Head::Both(first, second) => match variable_of(first) {
            Some(token) => Some(token),
            None => variable_of(second),
        },
    }
}

/// What the arguments are matched with.
pub fn matched_part<A: Allocator>(head: &Head<A>) -> &Expr<A>
    ensures { (text : List ℕ) → fun_expr_seen text result.now ≡ matched_part (fun_head_seen text head.now) }
{
    match head {
        Head::Alone(part) => part,
        Head::Both(first, second) => match variable_of(first) {
            Some(_) => second,
            None => first,
        },
    }
}

/// Whether it is this name.
fn is_name<A: Allocator>(other: &Vec<u8, A>, name: &[u8]) -> bool
    ensures { result ≡ bytes_eq name.now other.now.items }
{
    name == other.as_slice()
}

/// Whether the name is one of these.
fn is_among<A: Allocator>(names: &Vec<Vec<u8, A>, A>, name: &[u8]) -> bool
    ensures { result ≡ is_among (name_list_seen names.now.items) name.now }
{
    for other in names {
        if is_name(other, name) {
            return true;
        }
    }
    false
}

impl<A: Allocator> Names<A> {
    /// Whether it is the name of the whole.
    pub fn is_whole(&self, name: &[u8]) -> bool
        ensures { result ≡ is_of_whole (head_names_seen self.now).of_whole name.now }
    {
        match &self.whole {
            Some(whole) => whole.as_slice() == name,
            None => false,
        }
    }

    /// Whether the name gets no number: it has one, is `_`, or is that of the whole.
    fn is_known(&self, name: &[u8]) -> bool
        ensures { result ≡ (is_of_whole (head_names_seen self.now).of_whole name.now
            || (bytes_eq name.now ANY || is_among (head_names_seen self.now).numbers name.now)) }
    {
        self.is_whole(name) || name == b"_".as_slice() || is_among(&self.numbers, name)
    }

    /// One more name, unless it has a number, is `_`, or is that of the whole.
    fn add(&mut self, name: Vec<u8, A>) -> Result<(), AllocError>
        ensures whole { OnOk result ((head_names_seen self.new).of_whole ≡ (head_names_seen self.old).of_whole) }
        ensures numbers { OnOk result ((head_names_seen self.new).numbers
            ≡ with_name (head_names_seen self.old).of_whole (head_names_seen self.old).numbers name.items) }
    {
        if self.is_known(&name) {
            return Ok(());
        }
        Ok(self.numbers.push(name)?)
    }
}

impl<A: Allocator + Copy> Names<A> {
    /// The name of a part more, where that is a variable.
    fn add_part(&mut self, alloc: A, bytes: &[u8], part: &Expr<A>) -> Result<(), AllocError>
        ensures whole { OnOk result ((head_names_seen self.new).of_whole ≡ (head_names_seen self.old).of_whole) }
        ensures numbers { OnOk result ((head_names_seen self.new).numbers
            ≡ with_names (head_names_seen self.old).of_whole (head_names_seen self.old).numbers
            (option_to_list (name_of_variable (fun_expr_seen bytes.now part.now)))) }
    {
        match variable_of(part) {
            Some(token) => self.add(name_of(alloc, bytes, token)?),
            None => Ok(()),
        }
    }
}

/// The name of the whole alone.
fn names_with<A: Allocator + Copy>(
    alloc: A,
    bytes: &[u8],
    whole: Option<Token>,
) -> Result<Names<A>, AllocError>
    ensures whole { IfOk result (λ n. (head_names_seen n).of_whole ≡ option_map (token_name bytes.now) whole) }
    ensures numbers { IfOk result (λ n. (head_names_seen n).numbers ≡ []) }
{
    let whole = match whole {
        Some(token) => Some(name_of(alloc, bytes, token)?),
        None => None,
    };
    Ok(Names {
        whole,
        numbers: Vec::new(alloc),
    })
}

/// The names of a head.
pub fn names_of<A: Allocator + Copy>(
    alloc: A,
    bytes: &[u8],
    head: &Head<A>,
) -> Result<Names<A>, AllocError>
    ensures { IfOk result (λ n. head_names_seen n ≡ names_of (fun_head_seen bytes.now head.now)) }
{
    let mut names = names_with(alloc, bytes, whole_of(head))?;
    let mut parts = Vec::new(alloc);
    put_parts(matched_part(head), &mut parts)?;
    for i in 0..parts.len() {
        names.add_part(alloc, bytes, parts[i])?;
    }
    Ok(names)
}
