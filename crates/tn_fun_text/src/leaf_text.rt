// The texts of variables, strings and other leaves.
ghost use Rattle.std.specs.Prelude.{◌≡◌, ◌++◌, OnOk, true};
ghost use Rattle.def_fun.specs.FunTexts.{string_character, character_code, is_character_code, are_character_codes};
ghost use Rattle.def_fun.specs.FunTexts.{is_text};
ghost use Rattle.tn_term.specs.Views.{tree_of, trees_of};
ghost use Rattle.tn_fun_text.specs.Texts.{variable_text, fun_string_text, only_if as bytes_if, each_character};

use std::alloc::{AllocError, Allocator};
use tn_term::Term;
use tn_text::write_decimal;

/// These bytes, where they are wanted.
pub fn only_if(wanted: bool, bytes: &'static [u8]) -> &'static [u8]
    ensures { result.now ≡ bytes_if wanted bytes.now }
{
    if wanted { bytes } else { b"" }
}

/// Appends the variable of a number.
pub fn put_variable<A: Allocator>(number: u16, out: &mut Vec<u8, A>) -> Result<(), AllocError>
    ensures { OnOk result (out.new.items ≡ out.old.items ++ variable_text number) }
{
    out.extend_from_slice(b"X")?;
    write_decimal(number, out)
}

/// Appends a character of a string, with a backslash before a quote and a backslash.
fn put_code<A: Allocator>(code: u8, out: &mut Vec<u8, A>) -> Result<(), AllocError>
    ensures { OnOk result (out.new.items ≡ out.old.items ++ string_character code) }
{
    if code == b'"' || code == b'\\' {
        out.push(b'\\')?;
    }
    out.push(code)?;
    Ok(())
}

/// The code of a character.
fn code_of<A: Allocator>(term: &Term<A>) -> u8
    requires { is_character_code (tree_of term.now) ≡ true }
    ensures { result ≡ character_code (tree_of term.now) }
{
    match term {
        Term::Int(code) if 0 <= *code && *code <= 255 => *code as u8,
        _ => 0,
    }
}

/// Appends the characters of a string.
fn put_codes<A: Allocator>(terms: &Vec<Term<A>, A>, out: &mut Vec<u8, A>) -> Result<(), AllocError>
    requires { are_character_codes (trees_of terms.now.items) ≡ true }
    ensures { OnOk result (out.new.items ≡ out.old.items ++ each_character (trees_of terms.now.items)) }
{
    for i in 0..terms.len() {
        put_code(code_of(&terms[i]), out)?;
    }
    Ok(())
}

/// Appends a list of characters as a string.
pub fn put_string<A: Allocator>(
    terms: &Vec<Term<A>, A>,
    out: &mut Vec<u8, A>,
) -> Result<(), AllocError>
    requires { is_text (trees_of terms.now.items) ≡ true }
    ensures { OnOk result (out.new.items ≡ out.old.items ++ fun_string_text (trees_of terms.now.items)) }
{
    out.extend_from_slice(b"\"")?;
    put_codes(terms, out)?;
    out.extend_from_slice(b"\"")
}
