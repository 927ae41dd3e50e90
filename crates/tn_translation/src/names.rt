// The names of a clause's variables.
ghost use Rattle.std.specs.Prelude.{◌≡◌, ℕ, List, OnOk};
ghost use Rattle.def_fun.specs.Variables.{number_among, is_of_whole, with_name, variable_kind};
ghost use Rattle.def_fun.specs.Translation.{variable_term as term_of_variable};
ghost use Rattle.tn_fun.specs.Trees.{token_name};
ghost use Rattle.tn_term.specs.Views.{tree_of};
ghost use Rattle.tn_translation.specs.Faults.{GivesFun};
ghost use Rattle.tn_translation.specs.Names.{clause_names_seen, variable_kind_seen};

use crate::atoms::numbered_atom;
use crate::fault::FunFault;
use std::alloc::{AllocError, Allocator};
use tn_fun::{Token, name_of};
use tn_term::Term;

/// The greatest number of a variable.
const MAX_VARIABLES: usize = 999;

/// The name of the whole, where there is one, and the names with numbers from 1 in their order.
#[derive(Drop)]
pub struct ClauseNames<A: Allocator> {
    pub whole: Option<Vec<u8, A>>,
    pub numbers: Vec<Vec<u8, A>, A>,
}

/// What a variable is: the whole, anything, the one of that number, or none of the head.
#[derive(Clone, Copy)]
pub enum VariableKind {
    Whole,
    Anything,
    Number(usize),
    Unbound,
}

impl<A: Allocator> ClauseNames<A> {
    /// Whether it is the name of the whole.
    fn is_whole(&self, name: &[u8]) -> bool
        ensures { result ≡ is_of_whole (clause_names_seen self.now).of_whole name.now }
    {
        match &self.whole {
            Some(whole) => whole.as_slice() == name,
            None => false,
        }
    }

    /// The number of a name, where it has one.
    fn number_of(&self, name: &[u8]) -> Option<usize>
        ensures { result ≡ number_among 1 (clause_names_seen self.now).numbers name.now }
    {
        for (i, other) in self.numbers.iter().enumerate() {
            if other.as_slice() == name {
                return Some(i + 1);
            }
        }
        None
    }

    /// What the variable of a name is.
    fn kind_of(&self, name: &[u8]) -> VariableKind
        ensures { variable_kind_seen result ≡ variable_kind (clause_names_seen self.now) name.now }
    {
        if self.is_whole(name) {
            return VariableKind::Whole;
        }
        if name == b"_".as_slice() {
            return VariableKind::Anything;
        }
        match self.number_of(name) {
            Some(number) => VariableKind::Number(number),
            None => VariableKind::Unbound,
        }
    }

    /// One more name, unless it has a number, is `_`, or is that of the whole.
    pub fn add(&mut self, name: Vec<u8, A>) -> Result<(), AllocError>
        ensures whole { OnOk result ((clause_names_seen self.new).of_whole ≡ (clause_names_seen self.old).of_whole) }
        ensures numbers { OnOk result ((clause_names_seen self.new).numbers
            ≡ with_name (clause_names_seen self.old).of_whole (clause_names_seen self.old).numbers name.items) }
    {
        match self.kind_of(&name) {
            VariableKind::Unbound => Ok(self.numbers.push(name)?),
            _ => Ok(()),
        }
    }
}

/// The term of a variable of that kind.
fn kind_term<A: Allocator + Copy>(
    alloc: A,
    token: Token,
    kind: VariableKind,
) -> Result<Term<A>, FunFault>
    ensures { (text : List ℕ) → GivesFun tree_of text result
        (term_of_variable (token_name text token) token.from (variable_kind_seen kind)) }
{
    match kind {
        VariableKind::Whole => Ok(Term::word(alloc, "$_")?),
        VariableKind::Anything => Ok(Term::word(alloc, "_")?),
        VariableKind::Number(number) if number <= MAX_VARIABLES => Ok(numbered_atom(
            alloc, number,
        )?),
        VariableKind::Number(_) => Err(FunFault::TooLarge { at: token.from }),
        VariableKind::Unbound => Err(FunFault::Unbound(token)),
    }
}

/// The term of a variable.
pub fn variable_term<A: Allocator + Copy>(
    alloc: A,
    bytes: &[u8],
    names: &ClauseNames<A>,
    token: Token,
) -> Result<Term<A>, FunFault>
    ensures { GivesFun tree_of bytes.now result (term_of_variable (token_name bytes.now token) token.from
        (variable_kind (clause_names_seen names.now) (token_name bytes.now token))) }
{
    let name = name_of(alloc, bytes, token)?;
    kind_term(alloc, token, names.kind_of(&name))
}
