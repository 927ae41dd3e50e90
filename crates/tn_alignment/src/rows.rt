// How many lines two lists have in common at most, in a table.
ghost use Rattle.std.specs.Prelude.{◌≡◌, ◌+◌, ◌<◌, ◌≤◌, ◌^◌, length, IfOk, suc, if◌then◌else◌, max};
ghost use Rattle.tn_alignment.specs.Tables.{best, IsRow, IsTable, line_texts};

use std::alloc::{AllocError, Allocator};

/// The greatest of three: of two cells beside this one, and, where two lines are the same, of one more than the cell at
/// the corner.
fn best(below: usize, left: usize, corner: usize, is_same: bool) -> usize
    requires { corner + 1 < 2 ^ 64 }
    ensures { result ≡ best below left corner is_same }
{
    let beside = below.max(left);
    if is_same {
        beside.max(corner + 1)
    } else {
        beside
    }
}

/// The row of no line of the first list.
fn first_row<A: Allocator>(
    alloc: A,
    first: &[&[u8]],
    second: &[&[u8]],
) -> Result<Vec<usize, A>, AllocError>
    ensures { IfOk result (λ v. IsRow (line_texts first.now) 0 (line_texts second.now) v.items) }
{
    let mut row = Vec::new(alloc);
    row.push(0)?;
    for _line in second {
        row.push(0)?;
    }
    Ok(row)
}

/// The row of one line more of the first list, by the row below it.
fn next_row<A: Allocator>(
    alloc: A,
    first: &[&[u8]],
    at: usize,
    second: &[&[u8]],
    below: &[usize],
) -> Result<Vec<usize, A>, AllocError>
    requires place { at < length first.now }
    requires room { at + 1 < 2 ^ 64 }
    requires below { IsRow (line_texts first.now) at (line_texts second.now) below.now }
    ensures { IfOk result (λ v. IsRow (line_texts first.now) (at + 1) (line_texts second.now) v.items) }
{
    let line = first[at];
    let mut row = Vec::new(alloc);
    row.push(0)?;
    let mut left = 0;
    for (place, other) in second.iter().enumerate() {
        left = best(below[place + 1], left, below[place], line == *other);
        row.push(left)?;
    }
    Ok(row)
}

/// A row for each number of lines of the first list.
pub(crate) fn table_of<A: Allocator + Copy>(
    alloc: A,
    first: &[&[u8]],
    second: &[&[u8]],
) -> Result<Vec<Vec<usize, A>, A>, AllocError>
    ensures { IfOk result (λ v. IsTable (line_texts first.now) (line_texts second.now) v.items) }
{
    let mut table = Vec::new(alloc);
    table.push(first_row(alloc, first, second)?)?;
    for at in 0..first.len() {
        let row = next_row(alloc, first, at, second, &table[at])?;
        table.push(row)?;
    }
    Ok(table)
}
