// The line of a refusal.
ghost use Rattle.std.specs.Prelude.{◌≡◌, ◌++◌, ◌∷◌, OnOk, Some, decimal};
ghost use Rattle.def_term.specs.Text.{atom_text};
ghost use Rattle.def_fun.specs.Refusals.{FunRefusal, no_such, no_function, at_offset_text, fun_refusal_line};
ghost use Rattle.tn_fun.specs.Answers.{left_out_name};
ghost use Rattle.tn_fun.specs.States.{token_there};
ghost use Rattle.tn_fun.specs.Trees.{token_name};
ghost use Rattle.tn_translation.specs.Faults.{fun_fault_seen};

use crate::atoms::atom_of;
use crate::fault::FunFault;
use std::alloc::{AllocError, Allocator};
use tn_fun::{Kind, Token, name_of, token_bytes};
use tn_text::{write_atom, write_decimal};

/// Appends ` at ` and the offset.
fn put_offset<A: Allocator>(at: usize, out: &mut Vec<u8, A>) -> Result<(), AllocError>
    ensures { OnOk result (out.new.items ≡ out.old.items ++ at_offset_text at) }
{
    out.extend_from_slice(b" at ")?;
    write_decimal(at, out)
}

/// Appends words, and the offset.
fn put_place<A: Allocator>(words: &str, at: usize, out: &mut Vec<u8, A>) -> Result<(), AllocError>
    ensures { OnOk result (out.new.items ≡ out.old.items ++ (words.now ++ at_offset_text at)) }
{
    out.extend_from_slice(words.as_bytes())?;
    put_offset(at, out)
}

/// Appends words, the name of a variable, and its offset.
fn put_variable<A: Allocator + Copy>(
    alloc: A,
    bytes: &[u8],
    words: &str,
    token: Token,
    out: &mut Vec<u8, A>,
) -> Result<(), AllocError>
    ensures { OnOk result (out.new.items
        ≡ out.old.items ++ (words.now ++ token_name bytes.now token ++ at_offset_text token.from)) }
{
    let name = name_of(alloc, bytes, token)?;
    out.extend_from_slice(words.as_bytes())?;
    out.extend_from_slice(&name)?;
    put_offset(token.from, out)
}

/// Appends words and an atom.
fn put_named<A: Allocator + Copy>(
    alloc: A,
    bytes: &[u8],
    words: &str,
    token: Token,
    out: &mut Vec<u8, A>,
) -> Result<(), AllocError>
    ensures { OnOk result (out.new.items
        ≡ out.old.items ++ (words.now ++ atom_text (token_name bytes.now token))) }
{
    let name = atom_of(alloc, bytes, token)?;
    out.extend_from_slice(words.as_bytes())?;
    write_atom(&name, out)
}

/// Appends words, an atom, and its offset.
fn put_atom<A: Allocator + Copy>(
    alloc: A,
    bytes: &[u8],
    words: &str,
    token: Token,
    out: &mut Vec<u8, A>,
) -> Result<(), AllocError>
    ensures { OnOk result (out.new.items
        ≡ out.old.items ++ (words.now ++ atom_text (token_name bytes.now token) ++ at_offset_text token.from)) }
{
    put_named(alloc, bytes, words, token, out)?;
    put_offset(token.from, out)
}

/// Appends `/` and a number of arguments.
fn put_count<A: Allocator>(count: usize, out: &mut Vec<u8, A>) -> Result<(), AllocError>
    ensures { OnOk result (out.new.items ≡ out.old.items ++ (47 ∷ decimal count)) }
{
    out.push(b'/')?;
    write_decimal(count, out)
}

/// Appends the name of a function, the number of its arguments, and its offset.
fn put_function<A: Allocator + Copy>(
    alloc: A,
    bytes: &[u8],
    token: Token,
    count: usize,
    out: &mut Vec<u8, A>,
) -> Result<(), AllocError>
    ensures { OnOk result (out.new.items
        ≡ out.old.items ++ fun_refusal_line (no_function (token_name bytes.now token) count token.from)) }
{
    put_named(alloc, bytes, "refused 23 no function ", token, out)?;
    put_count(count, out)?;
    put_offset(token.from, out)
}

/// The name of a token that is left out, of `fun` or of `=`.
fn left_out(bytes: &[u8], token: Token) -> &[u8]
    ensures { result.now ≡ left_out_name (token_there bytes.now token) }
{
    match token.kind {
        Kind::LeftOut => token_bytes(bytes, token),
        Kind::Float => b"float",
        Kind::OtherNumber => b"number",
        Kind::Fun => b"fun",
        Kind::Match => b"=",
        _ => b"",
    }
}

/// Appends that a token is left out, with its name and its offset.
fn put_left_out<A: Allocator>(
    bytes: &[u8],
    token: Token,
    out: &mut Vec<u8, A>,
) -> Result<(), AllocError>
    ensures { OnOk result (out.new.items
        ≡ out.old.items ++ fun_refusal_line (no_such (left_out_name (token_there bytes.now token)) token.from)) }
{
    out.extend_from_slice(b"refused 21 no ")?;
    out.extend_from_slice(left_out(bytes, token))?;
    put_offset(token.from, out)
}

/// Appends the line of a refusal of the text, without its line feed. An error is refused memory.
pub fn put_refusal<A: Allocator + Copy>(
    alloc: A,
    bytes: &[u8],
    fault: FunFault,
    out: &mut Vec<u8, A>,
) -> Result<(), AllocError>
    ensures { OnOk result ((r : FunRefusal) → fun_fault_seen bytes.now fault ≡ Some r
        → out.new.items ≡ out.old.items ++ fun_refusal_line r) }
{
    match fault {
        FunFault::TooLong => out.extend_from_slice(b"refused 1 too long"),
        FunFault::Token { at } => put_place("refused 2 token", at, out),
        FunFault::NoSuch(token) => put_left_out(bytes, token, out),
        FunFault::TooDeep { at } => put_place("refused 3 too deep", at, out),
        FunFault::TooLarge { at } => put_place("refused 4 too large", at, out),
        FunFault::Unbound(token) => put_variable(alloc, bytes, "refused 22 unbound ", token, out),
        FunFault::NoFunction(token, count) => put_function(alloc, bytes, token, count, out),
        FunFault::Unsupported(token) => put_atom(
            alloc,
            bytes,
            "refused 24 unsupported ",
            token,
            out,
        ),
        FunFault::HeadAtom(token) => put_atom(alloc, bytes, "refused 25 head atom ", token, out),
        FunFault::ListWithTail { at } => put_place("refused 26 list with a tail", at, out),
        FunFault::MinusAlone { at } => put_place("refused 27 minus", at, out),
        FunFault::WholeHead(token) => put_variable(
            alloc,
            bytes,
            "refused 28 whole head ",
            token,
            out,
        ),
        FunFault::OutOfMemory => Err(AllocError),
    }
}
