// The fun of a specification's text.
ghost use Rattle.std.specs.Prelude.{◌≡◌, IfOk};
ghost use Rattle.def_fun.specs.FunTexts.{no_fun_line};
ghost use Rattle.tn_fun_text.specs.FunsOfSpecs.{IsFunOfAnyTerm, IsFunOfSpec, IsFunOfTerm};
ghost use Rattle.tn_fun_text.specs.Reasons.{no_fun_seen};
ghost use Rattle.tn_term.specs.Views.{tree_of};

use crate::clause_check::FunTextFault;
use crate::fun_text::write_fun;
use crate::no_fun::NoFun;
use std::alloc::{AllocError, Allocator};
use tn_spec::{Dialect, SpecFault, spec_of};
use tn_term::Term;
use tn_text::{TextFault, read_term};

/// What the text of a specification answers.
#[derive(Drop)]
pub enum FunOfSpec<A: Allocator> {
    /// The fun that it is of, with a line feed.
    Fun(Vec<u8, A>),
    /// The line that says why no fun has it.
    NoFun(Vec<u8, A>),
    /// It spells no term.
    NoTerm(TextFault),
    /// Its term is no specification.
    NoSpec(SpecFault<A>),
}

/// The line that says why no fun has a specification.
fn no_fun_line<A: Allocator + Copy>(
    alloc: A,
    reason: NoFun<'_, A>,
) -> Result<Vec<u8, A>, AllocError>
    ensures { IfOk result (λ v. v.items ≡ no_fun_line (no_fun_seen reason.entry)) }
{
    let mut line = Vec::new(alloc);
    reason.write(&mut line)?;
    Ok(line)
}

/// What the term of a text answers, which is a specification.
fn fun_of_term<A: Allocator + Copy>(
    alloc: A,
    term: &Term<A>,
    dialect: Dialect,
) -> Result<FunOfSpec<A>, AllocError>
    ensures { IfOk result (IsFunOfTerm dialect (tree_of term.now)) }
{
    let mut text = Vec::new(alloc);
    match write_fun(alloc, term, dialect, &mut text) {
        Ok(()) => {
            text.push(b'\n')?;
            Ok(FunOfSpec::Fun(text))
        }
        Err(FunTextFault::NoFun(reason)) => Ok(FunOfSpec::NoFun(no_fun_line(alloc, reason)?)),
        Err(FunTextFault::OutOfMemory) => Err(AllocError),
    }
}

/// What a term answers.
fn fun_of_any_term<A: Allocator + Copy>(
    alloc: A,
    term: &Term<A>,
    dialect: Dialect,
) -> Result<FunOfSpec<A>, AllocError>
    ensures { IfOk result (IsFunOfAnyTerm dialect (tree_of term.now)) }
{
    match spec_of(alloc, term, dialect) {
        Ok(_spec) => fun_of_term(alloc, term, dialect),
        Err(SpecFault::OutOfMemory) => Err(AllocError),
        Err(fault) => Ok(FunOfSpec::NoSpec(fault)),
    }
}

/// What a text answers.
///
/// # Errors
///
/// AllocError where memory was refused.
pub fn fun_of_spec<A: Allocator + Copy>(
    alloc: A,
    text: &[u8],
    dialect: Dialect,
) -> Result<FunOfSpec<A>, AllocError>
    ensures { IfOk result (IsFunOfSpec dialect text.now) }
{
    match read_term(alloc, text) {
        Ok(term) => fun_of_any_term(alloc, &term, dialect),
        Err(TextFault::OutOfMemory) => Err(AllocError),
        Err(fault) => Ok(FunOfSpec::NoTerm(fault)),
    }
}
