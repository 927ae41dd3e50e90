// What atoms are in heads and expressions.
ghost use Rattle.std.specs.Prelude.{◌≡◌, ◌≤◌, length, IsTrue, codes};
ghost use Rattle.std.specs.Str.{bytes_eq};
ghost use Rattle.def_term.specs.Text.{number_after};
ghost use Rattle.def_spec.specs.Reading.{all_digits, is_dollar_number, is_plain_number};
ghost use Rattle.def_spec.specs.Reading.{atom_kind, is_wildcard};
ghost use Rattle.tn_spec.specs.Names.{IsNumbered, atom_kind_seen};

/// What an atom is in a head or an expression.
#[derive(Clone, Copy)]
pub enum AtomKind {
    /// `'$N'`, N from 0 to 999 without leading zeros.
    Variable(u16),
    /// `$` and digits, but no variable.
    WrongVariable,
    Plain,
}

/// Whether each byte is a digit.
fn are_digits(bytes: &[u8]) -> bool
    ensures { result ≡ all_digits bytes.now }
{
    for b in bytes {
        if !b.is_ascii_digit() {
            return false;
        }
    }
    true
}

/// Whether it is `$` and one or more digits.
fn is_numbered(bytes: &[u8]) -> bool
    ensures { result ≡ is_dollar_number bytes.now }
{
    match bytes {
        [dollar, _, ..] => *dollar == b'$' && are_digits(&bytes[1..]),
        _ => false,
    }
}

/// Whether the digits are a number from 0 to 999 without leading zeros.
fn is_number(digits: &[u8]) -> bool
    ensures { result ≡ is_plain_number digits.now }
{
    match digits {
        [] => false,
        [_] => true,
        [first, ..] => *first != b'0' && digits.len() <= 3,
    }
}

/// The number that at most three digits write.
fn number(digits: &[u8]) -> u16
    requires digits { IsTrue (all_digits digits.now) }
    requires short { length digits.now ≤ 3 }
    ensures { result ≡ number_after 0 digits.now }
{
    let mut n: u16 = 0;
    for digit in digits {
        n = n * 10 + u16::from(*digit - b'0');
    }
    n
}

/// What an atom of this text is.
pub fn kind_of(text: &str) -> AtomKind
    ensures seen { atom_kind_seen result ≡ atom_kind text.now }
    ensures numbered { IsNumbered result }
{
    let bytes = text.as_bytes();
    if !is_numbered(bytes) {
        return AtomKind::Plain;
    }
    let digits = &bytes[1..];
    if is_number(digits) {
        AtomKind::Variable(number(digits))
    } else {
        AtomKind::WrongVariable
    }
}

/// Whether it is `'_'`.
pub fn is_anything(text: &str) -> bool
    ensures { result ≡ is_wildcard text.now }
{
    text == "_"
}
