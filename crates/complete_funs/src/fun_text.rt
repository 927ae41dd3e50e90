// The fun of a specification.
ghost use Rattle.std.specs.Prelude.{◌≡◌, OnOk};
ghost use Rattle.tn_fun_text.specs.Reasons.{no_fun_seen};
ghost use Rattle.complete_funs.specs.PrintedAnswers.{ArePrintedAlike};

use std::alloc::{AllocError, Allocator};
use tn_fun_text::{FunTextFault, NoFun};
use tn_spec::Dialect;
use tn_term::Term;

/// `tn_fun_text::write_fun` has one answer but for what is left after refused memory: the text after what was there, or
/// the reason, and what was there.
pub fn one_text<'a, A: Allocator + Copy>(
    alloc: A,
    term: &'a Term<A>,
    dialect: Dialect,
    first: &mut Vec<u8, A>,
    second: &mut Vec<u8, A>,
) -> (
    Result<(), FunTextFault<'a, A>>,
    Result<(), FunTextFault<'a, A>>,
)
    requires { first.old.items ≡ second.old.items }
    ensures { ArePrintedAlike result.0 first.new.items result.1 second.new.items }
{
    let one = tn_fun_text::write_fun(alloc, term, dialect, first);
    let other = tn_fun_text::write_fun(alloc, term, dialect, second);
    (one, other)
}

/// `tn_fun_text::NoFun::write` has one answer but for what is left after refused memory: that is a part of it.
pub fn one_line<'a, A: Allocator, B: Allocator>(
    one: &NoFun<'a, A>,
    other: &NoFun<'a, A>,
    first: &mut Vec<u8, B>,
    second: &mut Vec<u8, B>,
) -> (Result<(), AllocError>, Result<(), AllocError>)
    requires reasons { no_fun_seen one.now ≡ no_fun_seen other.now }
    requires texts { first.old.items ≡ second.old.items }
    ensures { OnOk result.0 (OnOk result.1 (first.new.items ≡ second.new.items)) }
{
    (one.write(first), other.write(second))
}
