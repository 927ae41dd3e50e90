// One token, and what is between tokens.
ghost use Rattle.std.specs.Prelude.{◌≡◌, ℕ, ◌+◌, ◌≤◌, List, ◌∷◌, length, drop, false, not, ◌==◌, Some, IfSome};
ghost use Rattle.std.specs.Option.{option_map};
ghost use Rattle.def_text.specs.Tokens.{stops};
ghost use Rattle.def_fun.specs.Tokens.{is_plain_in, is_escape, escape_code, after_digits};
ghost use Rattle.def_fun.specs.Scan.{symbol_at, word_token, in_quotes_at, quoted_atom};
ghost use Rattle.def_fun.specs.Scan.{string_token, character_at, fun_token_at};
ghost use Rattle.tn_fun.specs.Tokens.{fun_token_seen, front_seen, quoted_size};
ghost use Rattle.tn_fun.specs.Scan.{number_end_seen, number_of_digits, other_at, symbol_named, symbol_of_first};

use crate::token::Kind;
use crate::words::{symbol_of, word_of};
use tn_text::{digits_len, ends_form, name_len};

/// Whether the byte is a character by itself within these quotes.
pub fn is_plain(quote: u8, b: u8) -> bool
    ensures { result ≡ is_plain_in quote b }
{
    32 <= b && b <= 126 && !(b == quote || b == b'\\')
}

/// Whether the byte may be after a backslash.
pub fn is_escaped(b: u8) -> bool
    ensures { result ≡ is_escape b }
{
    32 <= b && b <= 126 && !(b == b'x' || b == b'^' || (b'0' <= b && b <= b'7'))
}

/// The code of a byte after a backslash.
pub fn escaped_code(b: u8) -> u8
    ensures { result ≡ escape_code b }
{
    match b {
        b'b' => 8,
        b'd' => 127,
        b'e' => 27,
        b'f' => 12,
        b'n' => 10,
        b'r' => 13,
        b's' => 32,
        b't' => 9,
        b'v' => 11,
        _ => b,
    }
}

/// How many bytes a quoted text has after its first quote, and whether each of its codes is from 32 to
/// 126; None where it has no end or a byte that may not be there.
fn quoted_len(bytes: &[u8], quote: u8) -> Option<(usize, bool)>
    ensures value { result ≡ quoted_size (in_quotes_at quote false bytes.now) }
    ensures fits { IfSome result (λ r. r.0 ≤ length bytes.now) }
{
    let mut len = 0;
    let mut printable = true;
    let mut escaped = false;
    for b in bytes {
        if escaped {
            if !is_escaped(*b) {
                return None;
            }
            let code = escaped_code(*b);
            printable = printable && 32 <= code && code <= 126;
            len += 2;
            escaped = false;
        } else if *b == quote {
            return Some((len + 1, printable));
        } else if *b == b'\\' {
            escaped = true;
        } else if is_plain(quote, *b) {
            len += 1;
        } else {
            return None;
        }
    }
    None
}

/// What makes digits a number that is left out.
#[derive(Clone, Copy)]
enum NumberEnd {
    Fraction,
    Base,
    Separator,
}

/// What makes the digits before these bytes a number that is left out.
fn number_end(bytes: &[u8]) -> Option<NumberEnd>
    ensures value { option_map number_end_seen result ≡ after_digits bytes.now }
    ensures fits { IfSome result (λ e. (number_end_seen e).1 ≤ length bytes.now) }
{
    let [first, rest @ ..] = bytes else {
        return None;
    };
    if *first == b'#' {
        return Some(NumberEnd::Base);
    }
    let [second, ..] = rest else {
        return None;
    };
    if *first == b'.' && second.is_ascii_digit() {
        Some(NumberEnd::Fraction)
    } else if *first == b'_' && second.is_ascii_digit() {
        Some(NumberEnd::Separator)
    } else {
        None
    }
}

/// The number at the front, of which so many bytes are digits, and its length.
fn number_of(bytes: &[u8], digits: usize) -> (Kind, usize)
    requires { digits ≤ length bytes.now }
    ensures value { front_seen bytes.now (Some result) ≡ number_of_digits digits bytes.now }
    ensures fits { result.1 ≤ length bytes.now }
{
    match number_end(&bytes[digits..]) {
        None => (Kind::Digits, digits),
        Some(NumberEnd::Fraction) => (Kind::Float, digits + 2),
        Some(NumberEnd::Base) => (Kind::OtherNumber, digits + 1),
        Some(NumberEnd::Separator) => (Kind::OtherNumber, digits + 2),
    }
}

/// The character after `$`, and its length with that.
fn character(bytes: &[u8]) -> Option<(Kind, usize)>
    ensures value { front_seen (36 ∷ bytes.now) result ≡ character_at bytes.now }
    ensures fits { IfSome result (λ p. p.1 ≤ length bytes.now + 1) }
{
    let [first, rest @ ..] = bytes else {
        return None;
    };
    if is_plain(b'\\', *first) {
        return Some((Kind::Character(*first), 2));
    }
    let [second, ..] = rest else {
        return None;
    };
    if *first == b'\\' && is_escaped(*second) {
        Some((Kind::Character(escaped_code(*second)), 3))
    } else {
        None
    }
}

/// The atom after its first quote, and its length with that.
fn quoted_name(bytes: &[u8]) -> Option<(Kind, usize)>
    ensures value { front_seen (39 ∷ bytes.now) result ≡ quoted_atom (in_quotes_at 39 false bytes.now) }
    ensures fits { IfSome result (λ p. p.1 ≤ length bytes.now + 1) }
{
    match quoted_len(bytes, b'\'') {
        Some((len, true)) => Some((Kind::Quoted, len + 1)),
        _ => None,
    }
}

/// Whether the bytes begin with a double quote.
fn has_quote(bytes: &[u8]) -> bool
    ensures { not result ≡ stops (λ b. b == 34) bytes.now }
{
    match bytes {
        [] => false,
        [b, ..] => *b == b'"',
    }
}

/// The string after its first quote, and its length with that.
fn string(bytes: &[u8]) -> Option<(Kind, usize)>
    ensures value { front_seen (34 ∷ bytes.now) result ≡ string_token bytes.now (in_quotes_at 34 false bytes.now) }
    ensures fits { IfSome result (λ p. p.1 ≤ length bytes.now + 1) }
{
    match quoted_len(bytes, b'"') {
        Some((len, _)) => {
            if has_quote(&bytes[len..]) {
                None
            } else {
                Some((Kind::Characters, len + 1))
            }
        }
        None => None,
    }
}

/// The symbol of these bytes.
fn symbol_of_bytes(bytes: &[u8]) -> Option<Kind>
    ensures { (all : List ℕ) → option_map (λ k. fun_token_seen k bytes.now all) result ≡ symbol_named bytes.now }
{
    match std::str::from_utf8(bytes) {
        Ok(text) => symbol_of(text),
        Err(_) => None,
    }
}

/// The symbol of the first bytes, at most so many, and its length.
fn symbol_within(bytes: &[u8], most: usize) -> Option<(Kind, usize)>
    ensures value { front_seen bytes.now result ≡ symbol_of_first most bytes.now }
    ensures fits { IfSome result (λ p. p.1 ≤ length bytes.now) }
{
    let len = most.min(bytes.len());
    match symbol_of_bytes(&bytes[..len]) {
        Some(kind) => Some((kind, len)),
        None => None,
    }
}

/// The longest symbol at the front, and its length.
fn symbol(bytes: &[u8]) -> Option<(Kind, usize)>
    ensures value { front_seen bytes.now result ≡ symbol_at bytes.now }
    ensures fits { IfSome result (λ p. p.1 ≤ length bytes.now) }
{
    if let Some(found) = symbol_within(bytes, 3) {
        return Some(found);
    }
    if let Some(found) = symbol_within(bytes, 2) {
        return Some(found);
    }
    symbol_within(bytes, 1)
}

/// The reserved word of these bytes, or the atom.
fn word(bytes: &[u8]) -> Kind
    ensures { (all : List ℕ) → fun_token_seen result bytes.now all ≡ word_token bytes.now }
{
    match std::str::from_utf8(bytes) {
        Ok(text) => match word_of(text) {
            Some(kind) => kind,
            None => Kind::Bare,
        },
        Err(_) => Kind::Bare,
    }
}

/// The token at the front that begins with neither a letter nor a digit, and its length.
fn other_token(bytes: &[u8]) -> Option<(Kind, usize)>
    ensures value { front_seen bytes.now result ≡ other_at bytes.now }
    ensures fits { IfSome result (λ p. p.1 ≤ length bytes.now) }
{
    let [first, rest @ ..] = bytes else {
        return None;
    };
    let b = *first;
    if b == b'$' {
        return character(rest);
    }
    if b == b'\'' {
        return quoted_name(rest);
    }
    if b == b'"' {
        return string(rest);
    }
    if b == b'.' && ends_form(rest) {
        return Some((Kind::FullStop, 1));
    }
    symbol(bytes)
}

/// The token at the front, and its length; None where the bytes form none.
pub fn front_token(bytes: &[u8]) -> Option<(Kind, usize)>
    ensures value { front_seen bytes.now result ≡ fun_token_at bytes.now }
    ensures fits { IfSome result (λ p. p.1 ≤ length bytes.now) }
{
    let [first, rest @ ..] = bytes else {
        return None;
    };
    let b = *first;
    if b.is_ascii_lowercase() {
        let len = name_len(rest) + 1;
        return Some((word(&bytes[..len]), len));
    }
    if b.is_ascii_uppercase() || b == b'_' {
        return Some((Kind::Variable, name_len(rest) + 1));
    }
    if b.is_ascii_digit() {
        return Some(number_of(bytes, digits_len(rest) + 1));
    }
    other_token(bytes)
}
