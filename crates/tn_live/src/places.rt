// Where messages stand in the listings, and receipts held against them.
ghost use Rattle.std.specs.Prelude.{◌≡◌, IfOk, map, Some, slice_get};
ghost use Rattle.tn_trace.specs.Items.{item_seen};
ghost use Rattle.tn_live.specs.Places.{item_place, reported_at, AreTold, TellsWhether, IsMessageAt};
ghost use Rattle.std.specs.Option.{option_map};
ghost use Rattle.tn_text.specs.WrittenTrees.{written_tree};

use crate::entry::ItemPlace;
use std::alloc::{AllocError, Allocator};
use tn_text::WrittenTerm;
use tn_trace::{Core, Item};

/// Where the messages of an answer stand.
pub(crate) fn find_places<A: Allocator + Copy>(
    alloc: A,
    items: &[Item<A>],
) -> Result<Vec<ItemPlace, A>, AllocError>
    ensures { IfOk result (λ v. v.items ≡ map item_place (map item_seen items.now)) }
{
    let mut places = Vec::with_capacity(alloc, items.len())?;
    for item in items {
        places.push(ItemPlace {
            session: item.session,
            index: item.index,
        })?;
    }
    Ok(places)
}

/// The message with this place in a listing, from 0.
fn nth_message<A: Allocator>(messages: &[WrittenTerm<A>], index: u64) -> Option<&WrittenTerm<A>>
    ensures { option_map (λ t. written_tree t.now) result ≡ slice_get (map written_tree messages.now) index }
{
    match messages.get(index as usize) {
        Some(message) => Some(message),
        None => None,
    }
}

/// The message at this place of the core's listings, if any.
fn find_message<A: Allocator + Copy>(core: &Core<A>, place: ItemPlace) -> Option<&WrittenTerm<A>>
    ensures { IsMessageAt core.now place result }
{
    match core.listing(place.session) {
        Ok(Some(messages)) => nth_message(messages, place.index),
        Ok(None) => None,
        Err(_) => None,
    }
}

/// Whether the item is the message at this place of the core's listings.
fn is_told<A: Allocator + Copy>(core: &Core<A>, place: ItemPlace, item: &Item<A>) -> bool
    ensures { TellsWhether core.now result (λ p picks. reported_at p picks place ≡ Some (item_seen item.now)) }
{
    if place.session != item.session || place.index != item.index {
        return false;
    }
    match find_message(core, place) {
        Some(message) => message.term().same(item.message.term()),
        None => false,
    }
}

/// Whether the items are the messages at these places, in order.
pub(crate) fn are_told<A: Allocator + Copy>(
    core: &Core<A>,
    places: &[ItemPlace],
    items: &[Item<A>],
) -> bool
    ensures { TellsWhether core.now result (λ p picks. AreTold p picks places.now items.now) }
{
    if places.len() != items.len() {
        return false;
    }
    for at in 0..places.len() {
        if !is_told(core, places[at], &items[at]) {
            return false;
        }
    }
    true
}
