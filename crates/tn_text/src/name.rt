// Atoms that need no quotes.
ghost use Rattle.std.specs.Prelude.{◌≡◌, codes, ◌∷◌};
ghost use Rattle.def_term.specs.Text.{is_among, reserved_words, is_name, is_name_byte};
ghost use Rattle.def_term.specs.Text.{are_name_bytes, is_written_bare};

use crate::reserved_words::is_reserved;

/// Whether the byte may follow the first letter of a bare atom.
pub fn is_name_byte_of(b: u8) -> bool
    ensures { result ≡ is_name_byte b }
{
    b.is_ascii_lowercase() || b.is_ascii_uppercase() || b.is_ascii_digit() || b == b'_' || b == b'@'
}

/// Whether the bytes are a small letter and then a run of such bytes.
fn is_name_of(bytes: &[u8]) -> bool
    ensures { result ≡ is_name bytes.now }
{
    match bytes {
        [] => false,
        [first, rest @ ..] => first.is_ascii_lowercase() && all_name_bytes(rest),
    }
}

/// Whether each byte may follow the first letter of a bare atom.
fn all_name_bytes(bytes: &[u8]) -> bool
    ensures { result ≡ are_name_bytes bytes.now }
{
    for b in bytes {
        if !is_name_byte_of(*b) {
            return false;
        }
    }
    true
}

/// Whether the text is a reserved word, or one of the two that are quoted like them.
fn is_set_apart(text: &str) -> bool
    ensures { result ≡ is_among (codes "maybe" ∷ codes "else" ∷ reserved_words) text.now }
{
    text == "maybe" || text == "else" || is_reserved(text)
}

/// Whether an atom of this text is written without quotes.
#[tactic(auto, unfolding(def_term::specs::Text::is_written_bare))]
pub fn is_bare(text: &str) -> bool
    ensures { result ≡ is_written_bare text.now }
{
    is_name_of(text.as_bytes()) && !is_set_apart(text)
}
