// The line and the column of an offset.
ghost use Rattle.std.specs.Prelude.{◌≡◌, ◌≤◌, ◌<◌, ◌+◌, length, take};
ghost use Rattle.def_text.specs.Places.{line_feeds, column_from, place_at};

/// A place in a text (own): the line and the column, both counted from 1. A column counts bytes, and a line
/// ends with its line feed.
#[derive(Clone, Copy, Drop)]
pub struct LineColumn {
    pub line: usize,
    pub column: usize,
}

/// The bytes before an offset; all of them where the text ends before it.
fn bytes_before(text: &[u8], offset: usize) -> &[u8]
    ensures value { result.now ≡ take offset text.now }
    ensures fits { length result.now ≤ length text.now }
{
    if offset < text.len() {
        &text[..offset]
    } else {
        text
    }
}

/// The place after these bytes of a text's front.
fn place_after(passed: &[u8]) -> LineColumn
    requires { length passed.now < usize.MAX }
    ensures line { result.line ≡ line_feeds passed.now + 1 }
    ensures column { result.column ≡ column_from 1 passed.now }
{
    let mut line = 1;
    let mut column = 1;
    for b in passed {
        if *b == b'\n' {
            line += 1;
            column = 1;
        } else {
            column += 1;
        }
    }
    LineColumn { line, column }
}

/// The line and the column of the byte at an offset in bytes, from 0; past the text, those of its end. It
/// goes over the bytes once and takes no memory.
pub fn line_column_of(text: &[u8], offset: usize) -> LineColumn
    requires { length text.now < usize.MAX }
    ensures line { result.line ≡ (place_at text.now offset).line }
    ensures column { result.column ≡ (place_at text.now offset).column }
{
    place_after(bytes_before(text, offset))
}
