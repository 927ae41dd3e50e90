// Why a text spells no match specification.
ghost use Rattle.std.specs.Prelude.{◌≡◌, ◌++◌, MatchResult, OnOk};
ghost use Rattle.def_explain.specs.SpecReasons.{spec_reason};
ghost use Rattle.tn_term.specs.Views.{tree_of};
ghost use Rattle.tn_spec.specs.Views.{dialect_of};
ghost use Rattle.tn_text.specs.Answers.{IsTextRefusal};
ghost use Rattle.tn_text.specs.Writes.{Grows};
ghost use Rattle.tn_verdict.specs.SpecReasonTexts.{text_where_reason, TellsReason};

use crate::spec_reason_texts::put_spec_reason;
use std::alloc::{AllocError, Allocator};
use tn_reason::spec_reason;
use tn_spec::Dialect;
use tn_term::Term;
use tn_text::{TextFault, read_term};

/// Appends why the term is no match specification; nothing where it is one.
fn put_reason_of<A: Allocator + Copy>(
    alloc: A,
    term: &Term<A>,
    dialect: Dialect,
    out: &mut Vec<u8, A>,
) -> Result<(), AllocError>
    ensures ok { OnOk result
        (out.new.items ≡ out.old.items ++ text_where_reason (spec_reason (dialect_of dialect) (tree_of term.now))) }
    ensures grows { Grows out.old.items out.new.items }
{
    match spec_reason(alloc, term, dialect)? {
        Some(why) => put_spec_reason(why, out),
        None => Ok(()),
    }
}

/// Why the term that the text spells is no match specification of that dialect; nothing where it is one.
///
/// # Errors
///
/// The refusal of a text that spells no term, or refused memory.
pub fn no_specification_text<A: Allocator + Copy>(
    alloc: A,
    text: &[u8],
    dialect: Dialect,
) -> Result<Vec<u8, A>, TextFault>
    ensures { MatchResult result (λ v. TellsReason dialect text.now v.items) (λ fault. IsTextRefusal text.now fault) }
{
    let term = read_term(alloc, text)?;
    let mut reason = Vec::new(alloc);
    match put_reason_of(alloc, &term, dialect, &mut reason) {
        Ok(()) => Ok(reason),
        Err(_) => Err(TextFault::OutOfMemory),
    }
}
