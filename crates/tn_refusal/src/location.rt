// Where a line says that a refusal is.
ghost use Rattle.std.specs.Prelude.{◌≡◌, ◌≤◌, ◌<◌, ◌-◌, ◌++◌, List, None, length, codes, decimal, IfOk, OnOk};
ghost use Rattle.std.specs.Option.{option_map};
ghost use Rattle.def_text.specs.Tokens.{TokenSpan};
ghost use Rattle.def_text.specs.Forms.{after_stops};
ghost use Rattle.tn_script.specs.Items.{form_item_of};
ghost use Rattle.tn_refusal.specs.Locations.{mark_text, IsMarkOf, IsFormMark, IsItemMark, location_of_item, spot_at};
ghost use Rattle.tn_refusal.specs.Details.{IsFormText, HasFormText, HasFormsOfRule, forms_seen};
ghost use Rattle.tn_refusal.specs.Refusals.{refusal_of, refused_part};
ghost use Rattle.tn_refusal.specs.Skims.{AreAhead};
ghost use Rattle.tn_refusal.specs.Starts.{IsListable};

use crate::item_starts::item_offset;
use crate::line_column::line_column_of;
use crate::refusal::{Refusal, RefusedPart, refusal_part};
use crate::refused_item::{ItemInForms, refused_item};
use crate::skim::next_start;
use crate::starts::{before_form, bytes_of_form};
use itoa::Buffer;
use std::alloc::{AllocError, Allocator};
use tn_script::{Form, FormItem};
use tn_text::MAX_TEXT;

/// Where the refusal is: the whole text, a line and a column, the line of a form with its number, or the line and the
/// column of a step or a command of a form.
#[derive(Clone, Copy)]
pub enum Location {
    Whole,
    Spot {
        line: usize,
        column: usize,
    },
    InForm {
        line: usize,
        form: usize,
    },
    InItem {
        line: usize,
        column: usize,
        form: usize,
    },
    /// Also the command's number in the control list.
    InCommand {
        line: usize,
        column: usize,
        form: usize,
        command: usize,
    },
}

/// Where a refusal is, and the bytes of the form that is refused, with its full stop; there are none where no form is.
#[derive(Drop)]
pub struct Mark<'t, A: Allocator> {
    pub location: Location,
    pub form: &'t [u8],
    /// The forms of the text, where the refusal is for one of their rules and the text spells forms.
    pub forms: Option<Vec<Form<A>, A>>,
}

impl<'t, A: Allocator> Mark<'t, A> {
    /// Where no form is refused.
    fn of(location: Location) -> Mark<'t, A>
        ensures place { result.location ≡ location }
        ensures forms { forms_seen result.forms ≡ None }
    {
        Mark {
            location,
            form: b"",
            forms: None,
        }
    }
}

/// The place of an offset.
fn spot(text: &[u8], at: usize) -> Location
    requires { length text.now < usize.MAX }
    ensures { result ≡ spot_at text.now at }
{
    let place = line_column_of(text, at);
    Location::Spot {
        line: place.line,
        column: place.column,
    }
}

/// The place of a step or a command of a form that begins at this offset.
fn item_spot(text: &[u8], form: usize, item: FormItem, at: usize) -> Location
    requires { length text.now < usize.MAX }
    ensures { result ≡ location_of_item text.now form (form_item_of item) at }
{
    let place = line_column_of(text, at);
    let line = place.line;
    let column = place.column;
    match item {
        FormItem::Step { .. } => Location::InItem { line, column, form },
        FormItem::Command { .. } => Location::InItem { line, column, form },
        FormItem::NumberedCommand { number, .. } => Location::InCommand {
            line,
            column,
            form,
            command: number,
        },
    }
}

/// Where a form is, or the step or the command of it: of a text of tokens, in which the form is after this offset.
fn item_location(text: &[u8], form: usize, before: usize, item: Option<FormItem>) -> Location
    requires short { length text.now < usize.MAX }
    requires fits { before ≤ length text.now }
    requires tokens { (xs : List TokenSpan) → AreAhead text.now 0 xs
        → AreAhead text.now before (after_stops (form - 1) xs) }
    ensures { IsListable text.now → IsItemMark text.now form (option_map form_item_of item) result }
{
    match item {
        Some(item) => item_spot(text, form, item, item_offset(text, form, item)),
        None => Location::InForm {
            line: line_column_of(text, next_start(text, before)).line,
            form,
        },
    }
}

/// Where the refusal for a form is, and the form's text.
fn form_mark<A: Allocator + Copy>(
    alloc: A,
    text: &[u8],
    refusal: Refusal,
    form: usize,
) -> Result<Mark<'_, A>, AllocError>
    requires { length text.now < usize.MAX }
    ensures place { IfOk result (λ m. IsFormMark text.now (refusal_of refusal) form m.location) }
    ensures form { IfOk result (λ m. IsFormText text.now form m.form.now) }
    ensures forms { IfOk result (λ m. HasFormsOfRule text.now (refusal_of refusal) (forms_seen m.forms)) }
{
    let ItemInForms { item, forms } = refused_item(alloc, text, refusal)?;
    let before = before_form(text, form);
    Ok(Mark {
        location: item_location(text, form, before, item),
        form: bytes_of_form(text, before),
        forms,
    })
}

/// Where the refusal of a text is; the whole text where that is longer than 1,048,576 bytes.
pub fn mark_of<A: Allocator + Copy>(
    alloc: A,
    text: &[u8],
    refusal: Refusal,
) -> Result<Mark<'_, A>, AllocError>
    ensures place { IfOk result (λ m. IsMarkOf text.now (refusal_of refusal) (refused_part (refusal_of refusal))
        m.location) }
    ensures form { IfOk result (λ m. HasFormText text.now (refused_part (refusal_of refusal)) m.form.now) }
    ensures forms { IfOk result (λ m. HasFormsOfRule text.now (refusal_of refusal) (forms_seen m.forms)) }
{
    if text.len() > MAX_TEXT {
        return Ok(Mark::of(Location::Whole));
    }
    match refusal_part(refusal) {
        RefusedPart::Whole => Ok(Mark::of(Location::Whole)),
        RefusedPart::Token { at } => Ok(Mark::of(spot(text, at))),
        RefusedPart::Form { form } => Ok(form_mark(alloc, text, refusal, form)?),
    }
}

/// Appends words and a number in decimal; after an `Err` some of it may stand there.
fn append_number<A: Allocator>(
    line: &mut Vec<u8, A>,
    words: &[u8],
    n: usize,
) -> Result<(), AllocError>
    ensures { OnOk result (line.new.items ≡ line.old.items ++ words.now ++ decimal n) }
{
    line.extend_from_slice(words)?;
    line.extend_from_slice(Buffer::new().format(n).as_bytes())
}

/// Appends a line's number, and words with the number of a column or a form.
fn append_numbers<A: Allocator>(
    line: &mut Vec<u8, A>,
    row: usize,
    words: &[u8],
    n: usize,
) -> Result<(), AllocError>
    ensures { OnOk result (line.new.items ≡ line.old.items ++ codes ":" ++ decimal row ++ words.now ++ decimal n) }
{
    append_number(line, b":", row)?;
    append_number(line, words, n)
}

/// Appends the line and the column of a step or a command, and words with a number.
fn append_spot<A: Allocator>(
    line: &mut Vec<u8, A>,
    row: usize,
    column: usize,
    words: &[u8],
    n: usize,
) -> Result<(), AllocError>
    ensures { OnOk result (line.new.items
        ≡ line.old.items ++ codes ":" ++ decimal row ++ codes ":" ++ decimal column ++ words.now ++ decimal n) }
{
    append_numbers(line, row, b":", column)?;
    append_number(line, words, n)
}

/// Appends where the refusal is.
fn append_mark<A: Allocator>(line: &mut Vec<u8, A>, mark: Location) -> Result<(), AllocError>
    ensures { OnOk result (line.new.items ++ codes ": " ≡ mark_text line.old.items mark) }
{
    match mark {
        Location::Whole => Ok(()),
        Location::Spot { line: row, column } => append_numbers(line, row, b":", column),
        Location::InForm { line: row, form } => append_numbers(line, row, b": form ", form),
        Location::InItem {
            line: row,
            column,
            form,
        } => append_spot(line, row, column, b": form ", form),
        Location::InCommand {
            line: row,
            column,
            form,
            command,
        } => {
            append_spot(line, row, column, b": form ", form)?;
            append_number(line, b", command ", command)
        }
    }
}

/// The front of a line: the name and where the refusal is.
pub fn front<A: Allocator>(alloc: A, name: &str, mark: Location) -> Result<Vec<u8, A>, AllocError>
    ensures { IfOk result (λ v. v.items ≡ mark_text name.now mark) }
{
    let mut line = Vec::from_slice(alloc, name.as_bytes())?;
    append_mark(&mut line, mark)?;
    line.extend_from_slice(b": ")?;
    Ok(line)
}
