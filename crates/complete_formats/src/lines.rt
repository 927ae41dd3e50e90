// The lines of a text.
ghost use Rattle.std.specs.Prelude.{◌≡◌, ◌<◌, length};

/// `tn_formats::first_line` has one answer.
pub fn first_line(text: &[u8]) -> ((&[u8], &[u8]), (&[u8], &[u8]))
    requires { 0 < length text.now }
    ensures line { result.0.0.now ≡ result.1.0.now }
    ensures after { result.0.1.now ≡ result.1.1.now }
{
    (tn_formats::first_line(text), tn_formats::first_line(text))
}
