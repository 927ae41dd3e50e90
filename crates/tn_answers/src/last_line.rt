// What was explored.
ghost use Rattle.std.specs.Prelude.{◌≡◌, ◌++◌, ℕ, OnOk, true, false};
ghost use Rattle.def_explore.specs.Output.{closing_line, exploration_end_text};

use std::alloc::{AllocError, Allocator};
use tn_text::write_decimal;

/// Appends a number and the word for one, with an s where it isn't one.
pub(crate) fn put_counted<B: Allocator>(
    number: usize,
    word: &[u8],
    out: &mut Vec<u8, B>,
) -> Result<(), AllocError>
    ensures { OnOk result (out.new.items ≡ out.old.items ++ exploration_end_text number word.now) }
{
    write_decimal(number, out)?;
    out.push(b' ')?;
    out.extend_from_slice(word)?;
    if number != 1 {
        out.push(b's')?;
    }
    Ok(())
}

/// Appends the line of an exploration that tried all states.
fn put_complete<B: Allocator>(
    states: usize,
    listings: usize,
    out: &mut Vec<u8, B>,
) -> Result<(), AllocError>
    ensures { OnOk result (out.new.items ≡ out.old.items ++ closing_line states listings true) }
{
    out.extend_from_slice(b"complete: ")?;
    put_counted(states, b"state", out)?;
    out.extend_from_slice(b", ")?;
    put_counted(listings, b"listing", out)?;
    out.push(b'\n')?;
    Ok(())
}

/// Appends the line of one that ended before.
fn put_incomplete<B: Allocator>(states: usize, out: &mut Vec<u8, B>) -> Result<(), AllocError>
    ensures { (n : ℕ) → OnOk result (out.new.items ≡ out.old.items ++ closing_line states n false) }
{
    out.extend_from_slice(b"not complete: ")?;
    put_counted(states, b"state", out)?;
    if states == 1 {
        out.extend_from_slice(b" was met\n")?;
        return Ok(());
    }
    out.extend_from_slice(b" were met\n")?;
    Ok(())
}

/// Appends whether all states were tried, how many were met, and how many listings there are.
pub(crate) fn put_closing<B: Allocator>(
    states: usize,
    listings: usize,
    is_complete: bool,
    out: &mut Vec<u8, B>,
) -> Result<(), AllocError>
    ensures { OnOk result (out.new.items ≡ out.old.items ++ closing_line states listings is_complete) }
{
    if is_complete {
        put_complete(states, listings, out)
    } else {
        put_incomplete(states, out)
    }
}
