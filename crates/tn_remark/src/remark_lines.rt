// The lines of what is said of a script's commands.
ghost use Rattle.std.specs.Prelude.{◌≡◌, ◌++◌, ◌<◌, length, codes, decimal, slice_get, OnOk};
ghost use Rattle.tn_refusal.specs.Locations.{mark_text};
ghost use Rattle.tn_remark.specs.TextLines.{command_mark, text_line, line_of_text, lines_of_texts};
ghost use Rattle.tn_remark.specs.TextLines.{text_seen, texts_seen};

use std::alloc::{AllocError, Allocator};
use tn_refusal::line_column_of;
use tn_text::write_decimal;

/// Appends a colon and a number.
fn put_after_colon<A: Allocator>(number: usize, out: &mut Vec<u8, A>) -> Result<(), AllocError>
    ensures { OnOk result (out.new.items ≡ out.old.items ++ codes ":" ++ decimal number) }
{
    out.extend_from_slice(b":")?;
    write_decimal(number, out)
}

/// Appends the name of a script and the place of an offset of its text.
fn put_place<A: Allocator>(
    name: &str,
    text: &[u8],
    start: usize,
    out: &mut Vec<u8, A>,
) -> Result<(), AllocError>
    requires { length text.now < usize.MAX }
    ensures { OnOk result (out.new.items ++ codes ": " ≡
        out.old.items ++ mark_text name.now (command_mark text.now (Some start))) }
{
    let place = line_column_of(text, start);
    out.extend_from_slice(name.as_bytes())?;
    put_after_colon(place.line, out)?;
    put_after_colon(place.column, out)
}

/// Appends the name of a script and where a command begins in its text; the name alone where that isn't known.
fn put_mark<A: Allocator>(
    name: &str,
    text: &[u8],
    start: Option<usize>,
    out: &mut Vec<u8, A>,
) -> Result<(), AllocError>
    requires { length text.now < usize.MAX }
    ensures { OnOk result (out.new.items ≡ out.old.items ++ mark_text name.now (command_mark text.now start)) }
{
    match start {
        Some(start) => put_place(name, text, start, out)?,
        None => out.extend_from_slice(name.as_bytes())?,
    }
    out.extend_from_slice(b": ")
}

/// Appends the line of what is said of the command of this number.
fn put_line<A: Allocator>(
    name: &str,
    text: &[u8],
    start: Option<usize>,
    number: usize,
    said: &Vec<u8, A>,
    out: &mut Vec<u8, A>,
) -> Result<(), AllocError>
    requires { length text.now < usize.MAX }
    ensures { OnOk result (out.new.items ≡ out.old.items ++ text_line name.now text.now start number said.now.items) }
{
    put_mark(name, text, start, out)?;
    out.extend_from_slice(b"command ")?;
    write_decimal(number, out)?;
    out.extend_from_slice(b" ")?;
    out.extend_from_slice(said)?;
    out.extend_from_slice(b"\n")
}

/// The same, where something is said of it.
fn put_line_of<A: Allocator>(
    name: &str,
    text: &[u8],
    start: Option<usize>,
    number: usize,
    said: &Option<Vec<u8, A>>,
    out: &mut Vec<u8, A>,
) -> Result<(), AllocError>
    requires { length text.now < usize.MAX }
    ensures { OnOk result (out.new.items ≡
        out.old.items ++ line_of_text name.now text.now start number (text_seen said.now)) }
{
    match said {
        Some(said) => put_line(name, text, start, number, said, out),
        None => Ok(()),
    }
}

/// The offset at this place of a list, where there is one.
fn start_at(starts: &[usize], place: usize) -> Option<usize>
    ensures { result ≡ slice_get starts.now place }
{
    match starts.get(place) {
        Some(start) => Some(*start),
        None => None,
    }
}

/// Appends the lines of what is said of a script's commands, in their order: the script's name, the line and the column
/// where the command begins, its number and what is said of it. A command of which nothing is said has no line. The
/// first of these offsets is where the first command begins, and so on; where the offset isn't there, the line has no
/// place.
///
/// # Errors
///
/// Refused memory; some of the lines may then be there.
pub fn put_lines<A: Allocator>(
    name: &str,
    text: &[u8],
    starts: &[usize],
    texts: &Vec<Option<Vec<u8, A>>, A>,
    out: &mut Vec<u8, A>,
) -> Result<(), AllocError>
    requires { length text.now < usize.MAX }
    ensures { OnOk result (out.new.items ≡
        out.old.items ++ lines_of_texts name.now text.now starts.now 0 (texts_seen texts.now.items)) }
{
    for place in 0..texts.len() {
        let start = start_at(starts, place);
        put_line_of(name, text, start, place + 1, &texts[place], out)?;
    }
    Ok(())
}
