// The lines of a text.
ghost use Rattle.std.specs.Prelude.{◌≡◌, ◌==◌, ◌∷◌, ◌+◌, ◌<◌, ◌≤◌, length};
ghost use Rattle.std.specs.List.{position};
ghost use Rattle.def_formats.specs.Lines.{text_lines, before_byte, past_byte};

/// Where the first line feed stands.
fn line_feed_at(text: &[u8]) -> Option<usize>
    ensures { result ≡ position (λ b. b == 10) text.now }
{
    text.iter().position(|b| *b == b'\n')
}

/// The first line of a text that isn't empty, and what stands after its line feed.
pub fn first_line(text: &[u8]) -> (&[u8], &[u8])
    requires { 0 < length text.now }
    ensures line { result.0.now ≡ before_byte 10 text.now }
    ensures after { result.1.now ≡ past_byte 10 text.now }
    ensures cut { text_lines text.now ≡ result.0.now ∷ text_lines result.1.now }
    ensures shorter { length result.1.now < length text.now }
    ensures within { length result.0.now + length result.1.now ≤ length text.now }
{
    match line_feed_at(text) {
        None => (text, b""),
        Some(end) => (&text[..end], &text[end + 1..]),
    }
}
