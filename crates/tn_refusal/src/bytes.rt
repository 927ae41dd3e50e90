// Parts of a text, and how long the runs at a front are.
ghost use Rattle.std.specs.Prelude.{◌≡◌, take};

/// The bytes from an offset on.
pub fn rest_at(text: &[u8], at: usize) -> &[u8] {
    if at < text.len() {
        &text[at..]
    } else {
        &text[text.len()..]
    }
}

/// The first bytes, so many or all.
pub fn first_bytes(bytes: &[u8], len: usize) -> &[u8]
    ensures { result.now ≡ take len bytes.now }
{
    if len < bytes.len() {
        &bytes[..len]
    } else {
        bytes
    }
}

/// The byte at an offset.
pub fn byte_at(bytes: &[u8], at: usize) -> Option<u8> {
    if at < bytes.len() {
        Some(bytes[at])
    } else {
        None
    }
}

/// Whether a digit stands at the front.
pub fn begins_with_digit(bytes: &[u8]) -> bool {
    match byte_at(bytes, 0) {
        Some(b) => b.is_ascii_digit(),
        None => false,
    }
}

/// How many digits stand at the end.
pub fn last_digits_len(bytes: &[u8]) -> usize {
    let mut len = 0usize;
    for b in bytes {
        len = if b.is_ascii_digit() {
            len.saturating_add(1)
        } else {
            0
        };
    }
    len
}

/// How many characters stand between two quotes, of the bytes with both.
pub fn characters_in(quoted: &[u8]) -> usize {
    let mut count = 0usize;
    let mut escaped = false;
    for b in quoted {
        escaped = *b == b'\\' && !escaped;
        if !escaped {
            count = count.saturating_add(1);
        }
    }
    count.saturating_sub(2)
}
