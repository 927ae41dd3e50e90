// Where the steps and the commands of a form begin.
ghost use Rattle.std.specs.Prelude.{◌≡◌, ◌≤◌, List, length};
ghost use Rattle.def_text.specs.Tokens.{TokenSpan};
ghost use Rattle.def_refusal.specs.ItemStarts.{from_element, form_element_of, item_position, from_item, ItemBegins};
ghost use Rattle.tn_script.specs.Items.{form_item_of};
ghost use Rattle.tn_refusal.specs.Skims.{AreAhead};
ghost use Rattle.tn_refusal.specs.Starts.{IsListable};

use crate::skim::{in_bracket, next_start, past_commas, past_stops};
use tn_script::FormItem;

/// The offset of the element with this number, from 1, of the tuple or list that begins at this one, or the end.
fn from_element(text: &[u8], from: usize, number: usize) -> usize
    requires { from ≤ length text.now }
    ensures tokens { (xs : List TokenSpan) → AreAhead text.now from xs
        → AreAhead text.now result (from_element number xs) }
    ensures fits { result ≤ length text.now }
{
    past_commas(text, in_bracket(text, from), number.saturating_sub(1))
}

/// Which element of the form's tuple has the item.
fn element_of(item: FormItem) -> usize
    ensures { result ≡ form_element_of (form_item_of item) }
{
    match item {
        FormItem::Step { .. } => 6,
        FormItem::Command { .. } => 2,
        FormItem::NumberedCommand { .. } => 2,
    }
}

/// The item's position in that element.
fn position_of(item: FormItem) -> usize
    ensures { result ≡ item_position (form_item_of item) }
{
    match item {
        FormItem::Step { position } => position,
        FormItem::Command { position } => position,
        FormItem::NumberedCommand { position, .. } => position,
    }
}

/// The offset of the item of the form with this number, from 1, or of what stands before it.
fn from_item(text: &[u8], form: usize, item: FormItem) -> usize
    ensures tokens { (xs : List TokenSpan) → AreAhead text.now 0 xs
        → AreAhead text.now result (from_item form (form_item_of item) xs) }
    ensures fits { result ≤ length text.now }
{
    let in_form = past_stops(text, form.saturating_sub(1));
    let in_element = from_element(text, in_form, element_of(item));
    from_element(text, in_element, position_of(item))
}

/// The offset in bytes, from 0, at which a step or a command of the form with this number, from 1, begins: of a text of
/// tokens. It goes over the bytes up to there and takes no memory.
pub fn item_offset(text: &[u8], form: usize, item: FormItem) -> usize
    ensures { IsListable text.now → ItemBegins text.now form (form_item_of item) result }
{
    next_start(text, from_item(text, form, item))
}
