// Where the commands of a script's text begin.
ghost use Rattle.std.specs.Prelude.{◌≡◌, ◌<◌, Bool, IfOk};
ghost use Rattle.def_explain.specs.CommandPlaces.{before_form, after_before_form, after_at_tag};
ghost use Rattle.def_explain.specs.CommandPlaces.{after_in_control, after_in_other_form};
ghost use Rattle.def_explain.specs.CommandPlaces.{place_after_token, begins_command};
ghost use Rattle.tn_replay.specs.CommandStarts.{place_seen, token_of, token_bytes, spells_control, starts_shown};
ghost use Rattle.tn_replay.specs.CommandStarts.{AreCommandStarts, depth_of};

use std::alloc::{AllocError, Allocator};
use tn_text::{Kind, TextFault, Token, tokens};

/// Where a token is: before a form, the first after the brace that opens one, in a form of another kind, or in a
/// control form and within so many brackets.
#[derive(Clone, Copy)]
pub(crate) enum TokenPlace {
    BeforeForm,
    AtTag,
    InOtherForm,
    InControl(usize),
}

/// The bytes of a token; none where the text ends before it.
fn token_text<'t>(text: &'t [u8], token: &Token) -> &'t [u8]
    ensures { result.now ≡ token_bytes text.now token.now }
{
    let rest = if token.from < text.len() {
        &text[token.from..]
    } else {
        b""
    };
    let len = token.to.saturating_sub(token.from);
    if len < rest.len() { &rest[..len] } else { rest }
}

/// Whether a token of this kind and these bytes is the atom `control`.
fn spells_control(kind: Kind, text: &[u8]) -> bool
    ensures { result ≡ spells_control kind text.now }
{
    match kind {
        Kind::Bare => text == b"control".as_slice(),
        Kind::Quoted => text == b"'control'".as_slice(),
        _ => false,
    }
}

/// Where the next token is, in a control form within so many brackets.
fn after_in_control(depth: usize, kind: Kind, is_control: bool) -> TokenPlace
    requires { depth < usize.MAX }
    ensures { place_seen result ≡ after_in_control depth (token_of kind is_control) }
{
    match kind {
        Kind::OpenBrace => TokenPlace::InControl(depth + 1),
        Kind::OpenBracket => TokenPlace::InControl(depth + 1),
        Kind::CloseBrace => TokenPlace::InControl(depth.saturating_sub(1)),
        Kind::CloseBracket => TokenPlace::InControl(depth.saturating_sub(1)),
        Kind::Stop => TokenPlace::BeforeForm,
        _ => TokenPlace::InControl(depth),
    }
}

/// Where the next token is, after the first of a form.
fn after_tag(kind: Kind, is_control: bool) -> TokenPlace
    ensures { place_seen result ≡ after_at_tag (token_of kind is_control) }
{
    match kind {
        Kind::Stop => TokenPlace::BeforeForm,
        Kind::Bare if is_control => TokenPlace::InControl(1),
        Kind::Quoted if is_control => TokenPlace::InControl(1),
        _ => TokenPlace::InOtherForm,
    }
}

/// Where the next token is, after one between two forms.
fn after_no_form(kind: Kind) -> TokenPlace
    ensures { (b : Bool) → place_seen result ≡ after_before_form (token_of kind b) }
{
    match kind {
        Kind::OpenBrace => TokenPlace::AtTag,
        Kind::Stop => TokenPlace::BeforeForm,
        _ => TokenPlace::InOtherForm,
    }
}

/// Where the next token is, after one in a form of another kind.
fn after_other_form(kind: Kind) -> TokenPlace
    ensures { (b : Bool) → place_seen result ≡ after_in_other_form (token_of kind b) }
{
    match kind {
        Kind::Stop => TokenPlace::BeforeForm,
        _ => TokenPlace::InOtherForm,
    }
}

/// Where the next token is.
fn after_token(place: TokenPlace, kind: Kind, is_control: bool) -> TokenPlace
    requires { depth_of place < usize.MAX }
    ensures { place_seen result ≡ place_after_token (place_seen place) (token_of kind is_control) }
{
    match place {
        TokenPlace::InControl(depth) => after_in_control(depth, kind, is_control),
        TokenPlace::AtTag => after_tag(kind, is_control),
        TokenPlace::BeforeForm => after_no_form(kind),
        TokenPlace::InOtherForm => after_other_form(kind),
    }
}

/// Whether a command begins with the token.
fn begins_command(place: TokenPlace, kind: Kind, is_control: bool) -> bool
    ensures { result ≡ begins_command (place_seen place) (token_of kind is_control) }
{
    match (place, kind) {
        (TokenPlace::InControl(depth), Kind::OpenBrace) => depth == 2,
        _ => false,
    }
}

/// The offsets at which commands begin among these tokens of the text.
fn starts_among<A: Allocator>(
    alloc: A,
    text: &[u8],
    tokens: &[Token],
) -> Result<Vec<usize, A>, AllocError>
    ensures { IfOk result (λ v. v.items ≡ starts_shown text.now before_form tokens.now) }
{
    let mut starts = Vec::new(alloc);
    let mut place = TokenPlace::BeforeForm;
    for token in tokens {
        let is_control = spells_control(token.kind, token_text(text, token));
        if begins_command(place, token.kind, is_control) {
            starts.push(token.from)?;
        }
        place = after_token(place, token.kind, is_control);
    }
    Ok(starts)
}

/// The offsets in bytes, from 0, at which the commands of the control list begin, in order. None where the text is
/// longer than 1,048,576 bytes, or has bytes that form no token.
pub(crate) fn command_starts<A: Allocator + Copy>(
    alloc: A,
    text: &[u8],
) -> Result<Option<Vec<usize, A>>, AllocError>
    ensures { IfOk result (AreCommandStarts text.now) }
{
    match tokens(alloc, text) {
        Ok(tokens) => Ok(Some(starts_among(alloc, text, &tokens)?)),
        Err(TextFault::OutOfMemory) => Err(AllocError),
        Err(TextFault::TooLong) => Ok(None),
        Err(TextFault::Token { .. }) => Ok(None),
        Err(TextFault::TooDeep { .. }) => Ok(None),
        Err(TextFault::TooLarge { .. }) => Ok(None),
    }
}
