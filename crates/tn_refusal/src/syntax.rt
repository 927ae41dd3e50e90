// What breaks the rules on a text: refusals 2 to 4.
ghost use Rattle.std.specs.Prelude.{◌≡◌, ◌<◌, ◌≤◌, ◌+◌, ◌-◌, ◌^◌, min, ◌++◌, length, codes, if◌then◌else◌};
ghost use Rattle.std.specs.Prelude.{OnOk, Some};
ghost use Rattle.def_text.specs.Spelling.{LENGTH};
ghost use Rattle.def_wording.specs.SyntaxTexts.{in_tuple, next_text, thing_hint, reserved_words_text};
ghost use Rattle.def_wording.specs.SyntaxTexts.{word_in_quotes, unopened_text, unclosed_text, closing_text};
ghost use Rattle.def_wording.specs.SyntaxTexts.{closer_text, string_hint, hint_text, misplaced_text, string_note};
ghost use Rattle.def_wording.specs.SyntaxTexts.{thing_at_text, is_part_of_number, variable_words_text};
ghost use Rattle.def_wording.specs.SyntaxTexts.{sign_hint, mark_hint, byte_hint, dot_hint};
ghost use Rattle.def_wording.specs.SyntaxTexts.{deep_text, characters_text, wide_text, open_text, large_text};
ghost use Rattle.tn_refusal.specs.TextViews.{thing_seen, text_item_seen, next_seen, bracket_seen, innermost_seen};
ghost use Rattle.tn_refusal.specs.TextViews.{read_state_seen, read_states_seen, kind_seen, TellsToken};

use crate::bytes::characters_in;
use crate::item::{TextItem, Thing, found_at, put_thing};
use crate::position::{OpenFrame, Position, ReadState, TextKind, standing_at};
use crate::put::{put_number, put_place, put_shown};
use std::alloc::{AllocError, Allocator};
use tn_text::MAX_TEXT;

/// What stands at a place of a text, and how far the text is read there; unknown where no tokens end there.
#[derive(Clone, Copy)]
struct TextView<'a> {
    found: TextItem<'a>,
    standing: Option<ReadState>,
}

/// What is seen at an offset of the text.
fn seen_at<A: Allocator + Copy>(
    alloc: A,
    text: &[u8],
    at: usize,
) -> Result<TextView<'_>, AllocError> {
    let found = found_at(alloc, text, at)?;
    let standing = standing_at(alloc, text, at)?;
    Ok(TextView { found, standing })
}

/// Whether the innermost that is open is a tuple.
fn is_in_tuple(innermost: Option<OpenFrame>) -> bool
    ensures { result ≡ in_tuple (innermost_seen innermost) }
{
    match innermost {
        Some(opened) => opened.is_tuple,
        None => false,
    }
}

/// What may stand next, in the words of a line.
fn next_words(position: Position, in_tuple: bool, kind: TextKind) -> &'static [u8]
    ensures { result.now ≡ next_text (next_seen position) in_tuple (kind_seen kind) }
{
    match (position, kind) {
        (Position::Form, TextKind::Term) => b"a term",
        (Position::Form, TextKind::Script) => b"a form",
        (Position::Done, TextKind::Term) => b"the end of the text",
        (Position::Done, TextKind::Script) => b"'.'",
        (Position::Next, _) => b"a term",
        (Position::First, _) => if in_tuple {
            b"a term or '}'"
        } else {
            b"a term or ']'"
        },
        (Position::After, _) => if in_tuple {
            b"',' or '}'"
        } else {
            b"',' or ']'"
        },
    }
}

/// What is said of a thing wherever it stands.
fn hint_of(thing: Thing) -> &'static [u8]
    ensures { result.now ≡ thing_hint (thing_seen thing) }
{
    match thing {
        Thing::Float => b": there are no floats",
        Thing::Binary => b": there are no binaries",
        Thing::Map => b": there are no maps",
        Thing::Hash => b": there are no references, ports or records, and numbers are decimal",
        Thing::Literal => b": a character is written as its number",
        Thing::Bar => b": a list has no tail, though one of a node may have",
        Thing::Pid => b": a pid is <0.N.0>, N without leading zeros",
        Thing::Angle => b": a pid is <0.N.0>, N without leading zeros",
        Thing::Unquoted => b": it has characters 32 to 126, and \\' and \\\\ for ' and \\",
        Thing::Unclosed => b": it has characters 32 to 126, and \\\" and \\\\ for \" and \\",
        _ => b"",
    }
}

/// What is said of a thing that closes or ends something where nothing is open.
fn unopened_words(thing: Thing, kind: TextKind) -> &'static [u8]
    ensures { result.now ≡ unopened_text (thing_seen thing) (kind_seen kind) }
{
    match (thing, kind) {
        (Thing::End, TextKind::Script) => b": a form ends with a full stop",
        (Thing::End, TextKind::Term) => b"",
        (Thing::Stop, TextKind::Term) => b": the term has no full stop after it here",
        _ => b": nothing is open",
    }
}

/// Appends which tuple or list isn't closed; after an `Err` a part of the text may be there.
fn put_unclosed<A: Allocator>(
    text: &[u8],
    opened: OpenFrame,
    out: &mut Vec<u8, A>,
) -> Result<(), AllocError>
    requires { length text.now < usize.MAX }
    ensures { OnOk result (out.new.items ≡ out.old.items ++ unclosed_text text.now (bracket_seen opened)) }
{
    if opened.is_tuple {
        out.extend_from_slice(b": '{' at ")?;
    } else {
        out.extend_from_slice(b": '[' at ")?;
    }
    put_place(text, opened.at, out)?;
    out.extend_from_slice(b" is not closed")
}

/// Appends what is said of a thing that closes or ends something, by what is open; after an `Err` a part of it may be
/// there.
fn put_closing<A: Allocator>(
    text: &[u8],
    innermost: Option<OpenFrame>,
    thing: Thing,
    kind: TextKind,
    out: &mut Vec<u8, A>,
) -> Result<(), AllocError>
    requires { length text.now < usize.MAX }
    ensures { OnOk result (out.new.items ≡
        out.old.items ++ closing_text text.now (innermost_seen innermost) (thing_seen thing) (kind_seen kind)) }
{
    match innermost {
        Some(opened) => put_unclosed(text, opened, out),
        None => out.extend_from_slice(unopened_words(thing, kind)),
    }
}

/// Appends what is said of a bracket that closes; after an `Err` a part of the text may be there.
fn put_closer<A: Allocator>(
    text: &[u8],
    standing: ReadState,
    kind: TextKind,
    out: &mut Vec<u8, A>,
) -> Result<(), AllocError>
    requires { length text.now < usize.MAX }
    ensures { OnOk result (out.new.items ≡
        out.old.items ++ closer_text text.now (read_state_seen standing) (kind_seen kind)) }
{
    match standing.position {
        Position::Next => out.extend_from_slice(b": no comma stands before a closing bracket"),
        _ => put_closing(text, standing.innermost, Thing::Close, kind, out),
    }
}

/// Whether a word is what follows the first digits of a number like `1_000`.
fn is_part_of_number(word: &[u8]) -> bool
    ensures { result ≡ is_part_of_number word.now }
{
    word.len() > 1 && word[0] == b'_' && word[1].is_ascii_digit()
}

/// What is said of a variable before the word in quotes.
fn variable_words(word: &[u8]) -> &'static [u8]
    ensures { result.now ≡ variable_words_text word.now }
{
    if is_part_of_number(word) {
        b": numbers have no '_', and variables are written in quotes, '"
    } else {
        b": variables are written in quotes, '"
    }
}

/// What is said of a sign without digits.
fn sign_words(position: Position) -> &'static [u8]
    ensures { result.now ≡ sign_hint (next_seen position) }
{
    match position {
        Position::Form => {
            b": a script is no module, and its forms are {function,..}, {process,..} and {control,..}"
        }
        _ => b": a sign stands before its digits, as in -1",
    }
}

/// What is said of a mark.
fn mark_words(position: Position, bytes: &[u8]) -> &'static [u8]
    ensures { result.now ≡ mark_hint (next_seen position) bytes.now }
{
    match bytes {
        [b'('] => b": a term has no calls, and 'Self' is the own pid",
        [b'-'] => sign_words(position),
        _ => b"",
    }
}

/// What is said of a byte that is no character.
fn byte_words(bytes: &[u8]) -> &'static [u8]
    ensures { result.now ≡ byte_hint bytes.now }
{
    match bytes.first() {
        Some(226) => b": a typographic quote begins with it, and ' is meant",
        Some(239) => b": a byte order mark begins with it, and a script has none",
        _ => b"",
    }
}

/// What is said of a reserved word before the word in quotes.
fn reserved_hint(word: &[u8]) -> &'static [u8]
    ensures { result.now ≡ reserved_words_text word.now }
{
    if word == b"fun".as_slice() {
        b": there are no funs, and the atom is written '"
    } else {
        b": reserved words are written in quotes, '"
    }
}

/// What is said of a dot that is no full stop.
fn dot_words(position: Position, kind: TextKind) -> &'static [u8]
    ensures { result.now ≡ dot_hint (next_seen position) (kind_seen kind) }
{
    match (position, kind) {
        (Position::Done, TextKind::Term) => b": a specification in a file is given by --file",
        _ => b": a full stop has a blank, a comment or the end of the text after it",
    }
}

/// What is said of a string.
fn string_words(position: Position) -> &'static [u8]
    ensures { result.now ≡ string_hint (next_seen position) }
{
    match position {
        Position::After => b": strings are not joined",
        _ => b"",
    }
}

/// Appends words, and the word in quotes; after an `Err` a part of the text may be there.
fn put_in_quotes<A: Allocator>(
    words: &[u8],
    word: &[u8],
    out: &mut Vec<u8, A>,
) -> Result<(), AllocError>
    ensures { OnOk result (out.new.items ≡ out.old.items ++ word_in_quotes words.now word.now) }
{
    out.extend_from_slice(words)?;
    put_shown(word, out)?;
    out.extend_from_slice(b"'")
}

/// Appends how the text can be fixed, where the mistake is a common one; after an `Err` a part of it may be there.
fn put_hint<A: Allocator>(
    text: &[u8],
    standing: ReadState,
    thing: Thing,
    bytes: &[u8],
    kind: TextKind,
    out: &mut Vec<u8, A>,
) -> Result<(), AllocError>
    requires { length text.now < usize.MAX }
    ensures { OnOk result (out.new.items ≡
        out.old.items ++ hint_text text.now (read_state_seen standing) (thing_seen thing) bytes.now (kind_seen kind)) }
{
    match thing {
        Thing::Variable => put_in_quotes(variable_words(bytes), bytes, out),
        Thing::Reserved => put_in_quotes(reserved_hint(bytes), bytes, out),
        Thing::Close => put_closer(text, standing, kind, out),
        Thing::End => put_closing(text, standing.innermost, Thing::End, kind, out),
        Thing::Stop => put_closing(text, standing.innermost, Thing::Stop, kind, out),
        Thing::Dot => out.extend_from_slice(dot_words(standing.position, kind)),
        Thing::Characters => out.extend_from_slice(string_words(standing.position)),
        Thing::Location => out.extend_from_slice(mark_words(standing.position, bytes)),
        Thing::Byte => out.extend_from_slice(byte_words(bytes)),
        thing => out.extend_from_slice(hint_of(thing)),
    }
}

/// Appends what could stand where a token is refused, what stands there, and how that can be fixed; after an `Err` a
/// part of the text may be there.
fn put_expected<A: Allocator>(
    text: &[u8],
    standing: ReadState,
    found: TextItem<'_>,
    kind: TextKind,
    out: &mut Vec<u8, A>,
) -> Result<(), AllocError>
    requires { length text.now < usize.MAX }
    ensures { OnOk result (out.new.items ≡ out.old.items
        ++ misplaced_text text.now (Some (read_state_seen standing)) (text_item_seen found.entry) (kind_seen kind)) }
{
    let in_tuple = is_in_tuple(standing.innermost);
    out.extend_from_slice(b": ")?;
    out.extend_from_slice(next_words(standing.position, in_tuple, kind))?;
    out.extend_from_slice(b" expected, found ")?;
    put_thing(found.thing, found.bytes, out)?;
    put_hint(text, standing, found.thing, found.bytes, kind, out)
}

/// Appends words and what stands there; after an `Err` a part of the text may be there.
fn put_found<A: Allocator>(
    words: &[u8],
    found: TextItem<'_>,
    out: &mut Vec<u8, A>,
) -> Result<(), AllocError>
    ensures { OnOk result (out.new.items ≡ out.old.items ++ words.now ++ thing_at_text (text_item_seen found.entry)) }
{
    out.extend_from_slice(words)?;
    put_thing(found.thing, found.bytes, out)
}

/// Appends what is said of a token that stands where it may not; after an `Err` a part of the text may be there.
fn put_misplaced<A: Allocator>(
    text: &[u8],
    standing: Option<ReadState>,
    found: TextItem<'_>,
    kind: TextKind,
    out: &mut Vec<u8, A>,
) -> Result<(), AllocError>
    requires { length text.now < usize.MAX }
    ensures { OnOk result (out.new.items ≡ out.old.items
        ++ misplaced_text text.now (read_states_seen standing) (text_item_seen found.entry) (kind_seen kind)) }
{
    match standing {
        Some(standing) => put_expected(text, standing, found, kind, out),
        None => put_found(b": found ", found, out),
    }
}

/// What is said of a string that nests too deep.
fn string_note_words(thing: Thing) -> &'static [u8]
    ensures { result.now ≡ string_note (thing_seen thing) }
{
    match thing {
        Thing::Characters => b", which is a list",
        _ => b"",
    }
}

/// Appends the token that nests too deep; after an `Err` a part of the text may be there.
fn put_deep<A: Allocator>(found: TextItem<'_>, out: &mut Vec<u8, A>) -> Result<(), AllocError>
    ensures { OnOk result (out.new.items ≡ out.old.items ++ deep_text (text_item_seen found.entry)) }
{
    put_found(b": level 33 begins with ", found, out)?;
    out.extend_from_slice(string_note_words(found.thing))
}

/// Appends words, and how many characters there are; after an `Err` a part of the text may be there.
fn put_length<A: Allocator>(
    words: &[u8],
    count: usize,
    out: &mut Vec<u8, A>,
) -> Result<(), AllocError>
    ensures { OnOk result (out.new.items ≡ out.old.items ++ characters_text words.now count) }
{
    put_number(words, count, out)?;
    out.extend_from_slice(b" characters")
}

/// The words before the place of a tuple or a list that has one element too many.
fn wide_words(is_tuple: bool) -> &'static [u8]
    ensures { result.now ≡ (if is_tuple then codes ": the tuple at " else codes ": the list at ") }
{
    if is_tuple {
        b": the tuple at "
    } else {
        b": the list at "
    }
}

/// How many elements stand before so many commas and the last of them.
fn element_count(commas: usize) -> usize
    ensures { result ≡ min (commas + 1) (2 ^ 64 - 1) }
{
    commas.saturating_add(1)
}

/// Appends the tuple or the list that has one element too many; after an `Err` a part of the text may be there.
fn put_wide<A: Allocator>(
    text: &[u8],
    opened: OpenFrame,
    out: &mut Vec<u8, A>,
) -> Result<(), AllocError>
    requires { length text.now < usize.MAX }
    ensures { OnOk result (out.new.items ≡ out.old.items ++ wide_text text.now (bracket_seen opened)) }
{
    out.extend_from_slice(wide_words(opened.is_tuple))?;
    put_place(text, opened.at, out)?;
    put_number(
        b" goes on after element ",
        element_count(opened.commas),
        out,
    )
}

/// The same, where it is known what is open; after an `Err` a part of the text may be there.
fn put_open<A: Allocator>(
    text: &[u8],
    standing: Option<ReadState>,
    out: &mut Vec<u8, A>,
) -> Result<(), AllocError>
    requires { length text.now < usize.MAX }
    ensures { OnOk result (out.new.items ≡ out.old.items ++ open_text text.now (read_states_seen standing)) }
{
    match standing {
        Some(standing) => match standing.innermost {
            Some(opened) => put_wide(text, opened, out),
            None => Ok(()),
        },
        None => Ok(()),
    }
}

/// Appends the token that passes a limit on sizes, with so many characters in quotes; after an `Err` a part of the text
/// may be there.
fn put_large<A: Allocator>(
    text: &[u8],
    standing: Option<ReadState>,
    found: TextItem<'_>,
    characters: usize,
    out: &mut Vec<u8, A>,
) -> Result<(), AllocError>
    requires { length text.now < usize.MAX }
    ensures { OnOk result (out.new.items ≡ out.old.items ++ large_text text.now (read_states_seen standing)
        (thing_seen found.entry.thing) found.entry.bytes.now characters) }
{
    match found.thing {
        Thing::Comma => put_open(text, standing, out),
        Thing::Atom => put_length(b": the atom has ", found.bytes.len(), out),
        Thing::Quoted => put_length(b": the atom has ", characters, out),
        Thing::Characters => put_length(b": the string has ", characters, out),
        _ => put_found(b": found ", found, out),
    }
}

/// What is wrong with a token: it may not stand there, nests too deep, or passes another limit.
#[derive(Clone, Copy)]
pub enum TokenFault {
    Misplaced,
    Deep,
    Large,
}

/// Appends what of a token breaks a rule; after an `Err` a part of the text may be there.
fn put_seen<A: Allocator>(
    text: &[u8],
    fault: TokenFault,
    seen: TextView<'_>,
    kind: TextKind,
    out: &mut Vec<u8, A>,
) -> Result<(), AllocError>
    requires { length text.now < usize.MAX }
    ensures { OnOk result (TellsToken fault text.now (kind_seen kind) out.old.items out.new.items) }
{
    match fault {
        TokenFault::Misplaced => put_misplaced(text, seen.standing, seen.found, kind, out),
        TokenFault::Deep => put_deep(seen.found, out),
        TokenFault::Large => {
            let characters = characters_in(seen.found.bytes);
            put_large(text, seen.standing, seen.found, characters, out)
        }
    }
}

/// Appends what of the token at this offset breaks a rule, and nothing of a text of more than 1,048,576 bytes. What
/// stands there is found by looking at the text: no clause says that it is right. After an `Err` a part of the text may
/// be there.
pub fn put_token<A: Allocator + Copy>(
    alloc: A,
    text: &[u8],
    fault: TokenFault,
    at: usize,
    kind: TextKind,
    out: &mut Vec<u8, A>,
) -> Result<(), AllocError>
    ensures { length text.now ≤ LENGTH
        → OnOk result (TellsToken fault text.now (kind_seen kind) out.old.items out.new.items) }
{
    if text.len() > MAX_TEXT {
        return Ok(());
    }
    let seen = seen_at(alloc, text, at)?;
    put_seen(text, fault, seen, kind, out)
}
