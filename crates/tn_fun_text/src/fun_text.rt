// A match specification printed as a fun.
ghost use Rattle.std.specs.Prelude.{◌≡◌};
ghost use Rattle.def_fun.specs.FunTexts.{fun_printed};
ghost use Rattle.tn_term.specs.Views.{tree_of};
ghost use Rattle.tn_spec.specs.Views.{dialect_of};
ghost use Rattle.tn_fun_text.specs.WrittenFuns.{IsPrinted};

use crate::clause_check::{FunTextFault, check_fun};
use crate::clause_text::put_fun;
use std::alloc::Allocator;
use tn_spec::Dialect;
use tn_term::Term;

/// Appends the text of the fun that has this specification of that dialect. A term that is no specification of the
/// dialect has a text or a reason of no use.
///
/// # Errors
///
/// The reason why no fun has it, where the vector is as it was; or refused memory, where a part of the text may be
/// there.
pub fn write_fun<'a, A: Allocator + Copy>(
    alloc: A,
    term: &'a Term<A>,
    dialect: Dialect,
    out: &mut Vec<u8, A>,
) -> Result<(), FunTextFault<'a, A>>
    ensures { IsPrinted (fun_printed (dialect_of dialect) (tree_of term.now)) out.old.items out.new.items result }
{
    check_fun(alloc, dialect, term)?;
    match put_fun(alloc, dialect, term, out) {
        Ok(()) => Ok(()),
        Err(_) => Err(FunTextFault::OutOfMemory),
    }
}
