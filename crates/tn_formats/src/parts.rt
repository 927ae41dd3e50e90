// The parts of a line.
ghost use Rattle.std.specs.Prelude.{◌≡◌, ◌==◌, drop};
ghost use Rattle.std.specs.List.{position};
ghost use Rattle.def_formats.specs.Lines.{before_byte, past_byte, message_kind, message_pid};

/// Where the first byte of this kind stands.
fn byte_at(text: &[u8], byte: u8) -> Option<usize>
    ensures { result ≡ position (λ b. b == byte) text.now }
{
    text.iter().position(|b| *b == byte)
}

/// What is before the first byte of this kind, and what is after it; all and nothing where there is none.
pub(crate) fn cut_at(text: &[u8], byte: u8) -> (&[u8], &[u8])
    ensures before { result.0.now ≡ before_byte byte text.now }
    ensures after { result.1.now ≡ past_byte byte text.now }
{
    match byte_at(text, byte) {
        None => (text, b""),
        Some(end) => (&text[..end], &text[end + 1..]),
    }
}

/// The pid of a trace message's text, and its kind.
pub(crate) fn message_parts(line: &[u8]) -> (&[u8], &[u8])
    ensures pid { result.0.now ≡ message_pid line.now }
    ensures kind { result.1.now ≡ message_kind line.now }
{
    let (_, rest) = cut_at(line, b',');
    let (pid, rest) = cut_at(rest, b',');
    let (kind, _) = cut_at(rest, b',');
    (pid, kind)
}

/// A text without so many bytes at its front.
pub(crate) fn without_front(text: &[u8], count: usize) -> &[u8]
    ensures { result.now ≡ drop count text.now }
{
    if count < text.len() {
        &text[count..]
    } else {
        b""
    }
}
