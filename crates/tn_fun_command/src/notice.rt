// What is said of a fun that is refused.
ghost use Rattle.std.specs.Prelude.{◌≡◌, ◌++◌, ℕ, List, OnOk, Some};
ghost use Rattle.def_fun.specs.Refusals.{FunRefusal};
ghost use Rattle.tn_translation.specs.Faults.{fun_fault_seen};
ghost use Rattle.tn_fun_command.specs.Words.{fun_refusal_offset, fun_place_text, refusal_notice, refusal_words};

use std::alloc::{AllocError, Allocator};
use tn_refusal::line_column_of;
use tn_text::write_decimal;
use tn_translation::FunFault;

/// What is wrong, and what to write instead.
fn words_of(fault: FunFault) -> &'static str
    ensures { (text : List ℕ) (r : FunRefusal) → fun_fault_seen text fault ≡ Some r → result.now ≡ refusal_words r }
{
    match fault {
        FunFault::TooLong => "the text has more than 1048576 bytes",
        FunFault::Token { .. } => "no fun has this here, or the text ends too soon",
        FunFault::NoSuch(_) => "a match specification has nothing for this",
        FunFault::TooDeep { .. } => "this nests too deep",
        FunFault::TooLarge { .. } => "this is past a limit",
        FunFault::Unbound(_) => "the head doesn't bind this variable; write a value in its place",
        FunFault::NoFunction(_, _) => "no such function may be called here; actions are in bodies",
        FunFault::Unsupported(_) => "this function isn't modelled",
        FunFault::HeadAtom(_) => "an atom of $ and a number is a variable in a head",
        FunFault::ListWithTail { .. } => "a tail is a list or a string here",
        FunFault::MinusAlone { .. } => "write 0 - X",
        FunFault::WholeHead(_) => "both parts of the head are this variable",
        FunFault::OutOfMemory => "",
    }
}

/// The offset of what is refused.
fn place_of(fault: FunFault) -> Option<usize>
    ensures { (text : List ℕ) (r : FunRefusal) → fun_fault_seen text fault ≡ Some r → result ≡ fun_refusal_offset r }
{
    match fault {
        FunFault::TooLong | FunFault::OutOfMemory => None,
        FunFault::Token { at }
        | FunFault::TooDeep { at }
        | FunFault::TooLarge { at }
        | FunFault::ListWithTail { at }
        | FunFault::MinusAlone { at } => Some(at),
        FunFault::NoSuch(token)
        | FunFault::Unbound(token)
        | FunFault::NoFunction(token, _)
        | FunFault::Unsupported(token)
        | FunFault::HeadAtom(token)
        | FunFault::WholeHead(token) => Some(token.from),
    }
}

/// Appends the line and the column of an offset, where there is one.
fn put_place<A: Allocator>(
    bytes: &[u8],
    at: Option<usize>,
    out: &mut Vec<u8, A>,
) -> Result<(), AllocError>
    ensures { OnOk result (out.new.items ≡ out.old.items ++ fun_place_text bytes.now at) }
{
    let Some(at) = at else {
        return Ok(());
    };
    let place = line_column_of(bytes, at);
    write_decimal(place.line, out)?;
    out.push(b':')?;
    write_decimal(place.column, out)?;
    out.extend_from_slice(b":")
}

/// The line on standard error of a refusal, without its line feed.
pub fn put_notice<A: Allocator>(
    bytes: &[u8],
    fault: FunFault,
    out: &mut Vec<u8, A>,
) -> Result<(), AllocError>
    ensures { OnOk result ((r : FunRefusal) → fun_fault_seen bytes.now fault ≡ Some r
        → out.new.items ≡ out.old.items ++ refusal_notice bytes.now r) }
{
    out.extend_from_slice(b"fun:")?;
    put_place(bytes, place_of(fault), out)?;
    out.push(b' ')?;
    out.extend_from_slice(words_of(fault).as_bytes())
}
