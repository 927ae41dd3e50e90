// How far a text is read: what is open, and what may stand next.
use crate::bytes::{first_bytes, rest_at};
use crate::skim::full_stops;
use std::alloc::{AllocError, Allocator};
use tn_text::{Kind, TextFault, Token, tokens};

/// What may stand next: a form, the first element of what is open or its end, an element after a comma, what
/// follows an element, or the full stop of a form.
#[derive(Clone, Copy, PartialEq, Eq)]
pub enum Position {
    Form,
    First,
    Next,
    After,
    Done,
}

/// What a text is: forms, each with its full stop, or one term without one.
#[derive(Clone, Copy, PartialEq, Eq)]
pub enum TextKind {
    Script,
    Term,
}

/// A tuple or a list that is open: whether it is a tuple, the offset of its bracket, and how many elements
/// stand before a comma in it.
#[derive(Clone, Copy)]
pub struct OpenFrame {
    pub is_tuple: bool,
    pub at: usize,
    pub commas: usize,
}

/// How far a text is read: what may stand next, and the innermost tuple or list that is open.
#[derive(Clone, Copy)]
pub struct ReadState {
    pub position: Position,
    pub innermost: Option<OpenFrame>,
}

/// The innermost tuple or list that these tokens, of a text from this offset on, open and don't close.
fn innermost_in(tokens: &[Token], from: usize) -> Option<OpenFrame> {
    let mut closed = 0usize;
    let mut commas = 0usize;
    for i in 0..tokens.len() {
        let token = &tokens[tokens.len() - 1 - i];
        match token.kind {
            Kind::Stop => return None,
            Kind::Comma if closed == 0 => commas = commas.saturating_add(1),
            Kind::CloseBrace | Kind::CloseBracket => closed = closed.saturating_add(1),
            Kind::OpenBrace | Kind::OpenBracket if closed > 0 => closed -= 1,
            Kind::OpenBrace | Kind::OpenBracket => {
                return Some(OpenFrame {
                    is_tuple: matches!(token.kind, Kind::OpenBrace),
                    at: from.saturating_add(token.from),
                    commas,
                });
            }
            _ => {}
        }
    }
    None
}

/// What may stand after these tokens, where something is open or nothing is.
fn position_after(tokens: &[Token], is_open: bool) -> Position {
    let Some(token) = tokens.last() else {
        return Position::Form;
    };
    match token.kind {
        Kind::Stop => Position::Form,
        Kind::OpenBrace | Kind::OpenBracket => Position::First,
        Kind::Comma => Position::Next,
        _ if is_open => Position::After,
        _ => Position::Done,
    }
}

/// How far a text is read that has these tokens from this offset on, where a form begins.
fn standing_after(tokens: &[Token], from: usize) -> ReadState {
    let innermost = innermost_in(tokens, from);
    ReadState {
        position: position_after(tokens, innermost.is_some()),
        innermost,
    }
}

/// How far the text is read before an offset; none where no tokens of the form there end at it. The tokens of earlier
/// forms are not listed.
pub fn standing_at<A: Allocator>(
    alloc: A,
    text: &[u8],
    at: usize,
) -> Result<Option<ReadState>, AllocError> {
    let front = first_bytes(text, at);
    let from = full_stops(front).end;
    match tokens(alloc, rest_at(front, from)) {
        Ok(found) => Ok(Some(standing_after(&found, from))),
        Err(TextFault::OutOfMemory) => Err(AllocError),
        Err(_) => Ok(None),
    }
}
