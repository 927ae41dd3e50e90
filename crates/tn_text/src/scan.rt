// One token, and what stands between tokens.
ghost use Rattle.std.specs.Prelude.{◌≡◌, ◌+◌, ◌≤◌, length, false, IfSome, IfNone};
ghost use Rattle.def_term.specs.Text.{is_digit, is_name_byte, is_among, reserved_words};
ghost use Rattle.def_text.specs.Tokens.{is_blank, gap_len as gap_len_of, ends_form, HasNoToken};
ghost use Rattle.def_text.specs.Scan.{run_len, quoted_end, pid_end, token_at};
ghost use Rattle.tn_text.specs.Kinds.{found_of, longer_at, enclosed_at, StandsAtFront};

use crate::name::is_name_byte_of;
use crate::reserved_words::is_reserved;

/// What a token is (own). Its bytes say which integer, atom, string or pid.
#[derive(Clone, Copy, Debug, PartialEq, Eq)]
pub enum Kind {
    OpenBrace,
    CloseBrace,
    OpenBracket,
    CloseBracket,
    Comma,
    Stop,
    Integer,
    Bare,
    Quoted,
    Characters,
    Pid,
}

/// Whether the byte is a blank: a space, a tab, a line feed or a carriage return.
pub fn is_blank(b: u8) -> bool
    ensures { result ≡ is_blank b }
{
    b == b' ' || b == b'\t' || b == b'\n' || b == b'\r'
}

/// How many bytes of blanks and comments there are before the first token. A comment is `%` and all bytes up to a line
/// feed or the end.
pub fn gap_len(bytes: &[u8]) -> usize
    ensures value { result ≡ gap_len_of false bytes.now }
    ensures fits { result ≤ length bytes.now }
{
    let mut inside = false;
    for (i, b) in bytes.iter().enumerate() {
        if inside {
            inside = *b != b'\n';
        } else if *b == b'%' {
            inside = true;
        } else if !is_blank(*b) {
            return i;
        }
    }
    bytes.len()
}

/// How many digits the bytes begin with.
pub fn digits_len(bytes: &[u8]) -> usize
    ensures value { result ≡ run_len is_digit bytes.now }
    ensures fits { result ≤ length bytes.now }
{
    for (i, b) in bytes.iter().enumerate() {
        if !b.is_ascii_digit() {
            return i;
        }
    }
    bytes.len()
}

/// How many bytes of a name the bytes begin with: letters, digits, `_` and `@`.
pub fn name_len(bytes: &[u8]) -> usize
    ensures value { result ≡ run_len is_name_byte bytes.now }
    ensures fits { result ≤ length bytes.now }
{
    for (i, b) in bytes.iter().enumerate() {
        if !is_name_byte_of(*b) {
            return i;
        }
    }
    bytes.len()
}

/// Whether the bytes are a reserved word.
fn is_reserved_word(bytes: &[u8]) -> bool
    ensures { result ≡ is_among reserved_words bytes.now }
{
    match std::str::from_utf8(bytes) {
        Ok(word) => is_reserved(word),
        Err(_) => false,
    }
}

/// How many bytes there are up to the quote that closes, and with it; the opening quote is before these bytes. None
/// where no quote closes, or a byte before it isn't printable or is escaped without need.
pub fn quoted_len(bytes: &[u8], quote: u8) -> Option<usize>
    ensures value { result ≡ quoted_end quote false 0 bytes.now }
    ensures fits { IfSome result (λ n. n ≤ length bytes.now) }
{
    let mut escaped = false;
    for (i, b) in bytes.iter().enumerate() {
        if escaped {
            if *b != quote && *b != b'\\' {
                return None;
            }
            escaped = false;
        } else if *b == quote {
            return Some(i + 1);
        } else if *b == b'\\' {
            escaped = true;
        } else if *b < 32 || 126 < *b {
            return None;
        }
    }
    None
}

// The length of the pid after its `<`.
fn pid_len(bytes: &[u8]) -> Option<usize>
    ensures value { result ≡ pid_end bytes.now }
    ensures fits { IfSome result (λ n. n ≤ length bytes.now) }
{
    if bytes.len() < 2 || bytes[0] != b'0' || bytes[1] != b'.' {
        return None;
    }
    let digits = &bytes[2..];
    let n = digits_len(digits);
    if n == 0 || (n > 1 && digits[0] == b'0') {
        return None;
    }
    let end = &digits[n..];
    if end.len() < 3 || end[0] != b'.' || end[1] != b'0' || end[2] != b'>' {
        return None;
    }
    Some(n + 5)
}

/// Whether a dot before these bytes is a full stop: a blank, a comment or nothing comes after it.
pub fn ends_form(bytes: &[u8]) -> bool
    ensures { result ≡ ends_form bytes.now }
{
    match bytes {
        [] => true,
        [b, ..] => is_blank(*b) || *b == b'%',
    }
}

/// The atom in quotes, the string or the pid at the front, and its length.
fn delimited_token(bytes: &[u8]) -> Option<(Kind, usize)>
    ensures value { found_of result ≡ enclosed_at bytes.now }
    ensures fits { IfSome result (λ p. p.1 ≤ length bytes.now) }
{
    let [first, rest @ ..] = bytes else {
        return None;
    };
    let b = *first;
    if b == b'\'' {
        return match quoted_len(rest, b'\'') {
            Some(n) => Some((Kind::Quoted, n + 1)),
            None => None,
        };
    }
    if b == b'"' {
        return match quoted_len(rest, b'"') {
            Some(n) => Some((Kind::Characters, n + 1)),
            None => None,
        };
    }
    if b == b'<' {
        return match pid_len(rest) {
            Some(n) => Some((Kind::Pid, n + 1)),
            None => None,
        };
    }
    None
}

/// The full stop, the integer, the bare atom or what is enclosed, at the front, and its length.
fn longer(bytes: &[u8]) -> Option<(Kind, usize)>
    ensures value { found_of result ≡ longer_at bytes.now }
    ensures fits { IfSome result (λ p. p.1 ≤ length bytes.now) }
{
    let [first, rest @ ..] = bytes else {
        return None;
    };
    let b = *first;
    if b == b'.' {
        return if ends_form(rest) {
            Some((Kind::Stop, 1))
        } else {
            None
        };
    }
    if b == b'-' {
        let n = digits_len(rest);
        return if n == 0 {
            None
        } else {
            Some((Kind::Integer, n + 1))
        };
    }
    if b.is_ascii_digit() {
        return Some((Kind::Integer, digits_len(rest) + 1));
    }
    if b.is_ascii_lowercase() {
        let n = name_len(rest) + 1;
        return if is_reserved_word(&bytes[..n]) {
            None
        } else {
            Some((Kind::Bare, n))
        };
    }
    delimited_token(bytes)
}

/// The token at the front, and its length.
fn front_token(bytes: &[u8]) -> Option<(Kind, usize)>
    ensures value { found_of result ≡ token_at bytes.now }
    ensures fits { IfSome result (λ p. p.1 ≤ length bytes.now) }
{
    let [first, ..] = bytes else {
        return None;
    };
    match *first {
        b'{' => Some((Kind::OpenBrace, 1)),
        b'}' => Some((Kind::CloseBrace, 1)),
        b'[' => Some((Kind::OpenBracket, 1)),
        b']' => Some((Kind::CloseBracket, 1)),
        b',' => Some((Kind::Comma, 1)),
        _ => longer(bytes),
    }
}

/// The token at the front, and its length.
pub fn next_token(bytes: &[u8]) -> Option<(Kind, usize)>
    ensures found { IfSome result (StandsAtFront bytes.now) }
    ensures none { IfNone result (HasNoToken bytes.now) }
{
    front_token(bytes)
}
