// Texts without the maps of errors.
ghost use Rattle.std.specs.Prelude.{◌≡◌, ◌==◌, ◌+◌, ◌≤◌, length, IfOk};
ghost use Rattle.std.specs.List.{list_any, prefix_len};
ghost use Rattle.def_text.specs.Tokens.{is_blank};
ghost use Rattle.def_trace_text.specs.ErrorMaps.{value_offset, begins_error_map, error_map_length};
ghost use Rattle.def_trace_text.specs.ErrorMaps.{without_error_maps};

use crate::dbg::{bytes_after, escapes_next, part_length, quote_after};
use std::alloc::{AllocError, Allocator};
use tn_text::is_blank;

/// How many blanks come first.
fn blanks_length(text: &[u8]) -> usize
    ensures value { result ≡ prefix_len is_blank text.now }
    ensures fits { result ≤ length text.now }
{
    for (i, b) in text.iter().enumerate() {
        if !is_blank(*b) {
            return i;
        }
    }
    text.len()
}

/// How many bytes are before the value, where the text begins with `{error_info,`.
fn value_offset(text: &[u8]) -> usize
    ensures value { result ≡ value_offset text.now }
    ensures fits { result ≤ length text.now + 12 }
{
    12 + blanks_length(bytes_after(12, text))
}

/// Whether a text begins with `{error_info,` and a map.
fn begins_error_map(text: &[u8]) -> bool
    ensures { result ≡ begins_error_map text.now }
{
    text.starts_with(b"{error_info,") && bytes_after(value_offset(text), text).starts_with(b"#{")
}

/// How many bytes there are up to the end of the map.
fn error_map_length(text: &[u8]) -> usize
    ensures { result ≡ error_map_length text.now }
{
    let inside = value_offset(text) + 2;
    inside + part_length(b'}', bytes_after(inside, text)) + 1
}

/// Whether a number sign is in a text.
pub(crate) fn has_number_sign(text: &[u8]) -> bool
    ensures { result ≡ list_any (λ b. b == 35) text.now }
{
    text.contains(&b'#')
}

/// A copy of a text, with the empty list for the map of each error.
pub(crate) fn without_error_maps<A: Allocator>(
    alloc: A,
    text: &[u8],
) -> Result<Vec<u8, A>, AllocError>
    ensures { IfOk result (λ v. v.items ≡ without_error_maps text.now) }
{
    let mut copy = Vec::new(alloc);
    let mut quote = None;
    let mut escaped = false;
    let mut rest = text;
    while !rest.is_empty() {
        if quote.is_none() && begins_error_map(rest) {
            copy.extend_from_slice(b"{error_info,[]")?;
            rest = bytes_after(error_map_length(rest), rest);
        } else {
            let b = rest[0];
            copy.push(b)?;
            let open = quote_after(quote, escaped, b);
            escaped = escapes_next(quote, escaped, b);
            quote = open;
            rest = &rest[1..];
        }
    }
    Ok(copy)
}
