// A line.
ghost use Rattle.std.specs.Prelude.{◌≡◌, IfOk};
ghost use Rattle.tn_trace.specs.Items.{item_seen};

use std::alloc::{AllocError, Allocator};
use tn_listing::Line;
use tn_trace::Item;

/// `tn_listing::line_of` has one answer.
pub fn line_of<A: Allocator + Copy>(
    alloc: A,
    one: Item<A>,
    other: Item<A>,
) -> (Result<Line<A>, AllocError>, Result<Line<A>, AllocError>)
    requires { item_seen one ≡ item_seen other }
    ensures { IfOk result.0 (λ l. IfOk result.1 (λ k. item_seen l.item ≡ item_seen k.item)) }
{
    let first = tn_listing::line_of(alloc, one);
    let second = tn_listing::line_of(alloc, other);
    (first, second)
}

/// `tn_listing::Line::item` has one answer.
pub fn item<'a, A: Allocator>(one: &'a Line<A>, other: &'a Line<A>) -> (&'a Item<A>, &'a Item<A>)
    requires { item_seen one.now.item ≡ item_seen other.now.item }
    ensures { item_seen result.0.now ≡ item_seen result.1.now }
{
    (one.item(), other.item())
}

/// `tn_listing::Line::text` has one answer.
pub fn text<'a, A: Allocator>(one: &'a Line<A>, other: &'a Line<A>) -> (&'a [u8], &'a [u8])
    requires { item_seen one.now.item ≡ item_seen other.now.item }
    ensures { result.0.now ≡ result.1.now }
{
    (one.text(), other.text())
}
