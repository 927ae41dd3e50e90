// Values that may be written in two ways: a process by its number or its pid, a session by its name bare or in quotes;
// and which texts are numbers.
ghost use Rattle.std.specs.Prelude.{◌≡◌, ◌≢◌, ◌++◌, ℕ, List, IfNone, IfSome};
ghost use Rattle.std.specs.List.{list_all};
ghost use Rattle.tn_cli.specs.Requests.{NamesProcess, NamesNoProcess, is_inner, session_named};
ghost use Rattle.tn_cli.specs.Requests.{has_only_digits};
ghost use Rattle.def_term.specs.Text.{is_digit};

use tn_command::plain_number;

/// What stands in a text between such a beginning and such an end, where it has both.
fn between<'a>(text: &'a str, opening: &str, closing: &str) -> Option<&'a str>
    ensures none { IfNone result ((inner : List ℕ) → text.now ≢ opening.now ++ inner ++ closing.now) }
    ensures some { IfSome result (λ inner. text.now ≡ opening.now ++ inner.now ++ closing.now) }
{
    text.strip_prefix(opening)?.strip_suffix(closing)
}

/// The process that a text names: by its number N, or by its pid <0.N.0>.
pub fn process_number(text: &str) -> Option<u32>
    ensures none { IfNone result (NamesNoProcess text.now) }
    ensures some { IfSome result (NamesProcess text.now) }
{
    match between(text, "<0.", ".0>") {
        Some(digits) => plain_number(digits),
        None => plain_number(text),
    }
}

/// Whether a text has neither a quote nor a backslash.
fn is_inner_text(text: &str) -> bool
    ensures { result ≡ list_all is_inner text.now }
{
    text.bytes().all(|byte| byte != b'\'' && byte != b'\\')
}

/// The session's name that a text gives: what is between the quotes, where it is in quotes and has no quote and no
/// backslash between them, else the text.
pub fn session_name(text: &str) -> &str
    ensures { result.now ≡ session_named text.now }
{
    match between(text, "'", "'") {
        Some(name) if is_inner_text(name) => name,
        _ => text,
    }
}

/// Whether each byte of a text is a decimal digit.
fn are_digits(text: &str) -> bool
    ensures { result ≡ list_all is_digit text.now }
{
    text.bytes().all(|byte| byte >= b'0' && byte <= b'9')
}

/// Whether a text is decimal digits, one at least.
pub fn is_digits(text: &str) -> bool
    ensures { result ≡ has_only_digits text.now }
{
    !text.is_empty() && are_digits(text)
}
