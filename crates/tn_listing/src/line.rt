// A line of a listing.
ghost use Rattle.std.specs.Prelude.{◌≡◌, IfOk};
ghost use Rattle.def_run.specs.Listing as definition;
ghost use Rattle.tn_trace.specs.Items.{item_seen};

use std::alloc::{AllocError, Allocator};
use tn_trace::Item;

/// A message of a session with its text, which ends with a line feed.
#[derive(Drop)]
pub struct Line<A: Allocator> {
    item: Item<A>,
    text: Vec<u8, A>,
    ghost written: { text.items ≡ definition.line_of (item_seen item).message },
}

impl<A: Allocator> Line<A> {
    /// The message, its session's number and its place in the listing.
    pub fn item(&self) -> &Item<A>
        ensures { item_seen result.now ≡ item_seen self.now.item }
    {
        &self.item
    }

    /// The message's text with a line feed.
    pub fn text(&self) -> &[u8]
        ensures { result.now ≡ definition.line_of (item_seen self.now.item).message }
    {
        &self.text
    }
}

/// The line of an item.
///
/// # Errors
///
/// AllocError where memory was refused.
pub fn line_of<A: Allocator + Copy>(alloc: A, item: Item<A>) -> Result<Line<A>, AllocError>
    ensures { IfOk result (λ l. item_seen l.item ≡ item_seen item) }
{
    let mut text = Vec::new(alloc);
    text.extend_from_slice(item.message.text())?;
    text.push(b'\n')?;
    Ok(Line { item, text })
}
