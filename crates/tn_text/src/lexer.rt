// All tokens of a text.
ghost use Rattle.std.specs.Prelude.{◌≤◌, length};
ghost use Rattle.tn_text.specs.Lexer.{IsNextAt};
ghost use Rattle.tn_text.specs.Answers.{IsTokenList};

use crate::fault::TextFault;
use crate::scan::{Kind, gap_len, next_token};
use std::alloc::Allocator;

/// How many bytes a text may have.
pub const MAX_TEXT: usize = 1_048_576;

/// A token of a text (own): what it is, and the offsets in bytes of its first byte and of the byte
/// after it.
#[derive(Clone, Copy, Debug, PartialEq, Eq)]
pub struct Token {
    pub kind: Kind,
    pub from: usize,
    pub to: usize,
}

/// What stands next in a text: nothing more, bytes that form no token, or a token.
#[derive(Clone, Copy)]
pub enum NextToken {
    End,
    Bad(usize),
    Token(Token),
}

/// What stands after the blanks and comments at an offset.
pub fn next_at(bytes: &[u8], at: usize) -> NextToken
    requires { at ≤ length bytes.now }
    ensures { IsNextAt bytes.now at result }
{
    let from = at + gap_len(&bytes[at..]);
    let rest = &bytes[from..];
    if rest.is_empty() {
        return NextToken::End;
    }
    match next_token(rest) {
        Some((kind, len)) => NextToken::Token(Token {
            kind,
            from,
            to: from + len,
        }),
        None => NextToken::Bad(from),
    }
}

/// The tokens of a text in their order. A text of more than 1,048,576 bytes is refused `TooLong`, one
/// with bytes that form no token `Token`, at the first place where none stands; never `TooDeep` or
/// `TooLarge`. Memory that runs out is `OutOfMemory` and says nothing of the text.
pub fn tokens<A: Allocator>(alloc: A, bytes: &[u8]) -> Result<Vec<Token, A>, TextFault>
    ensures { IsTokenList bytes.now result }
{
    if bytes.len() > MAX_TEXT {
        return Err(TextFault::TooLong);
    }
    let mut found = Vec::new(alloc);
    let mut at = 0;
    while at < bytes.len() {
        match next_at(bytes, at) {
            NextToken::End => return Ok(found),
            NextToken::Bad(at) => return Err(TextFault::Token { at }),
            NextToken::Token(token) => {
                if found.push(token).is_err() {
                    return Err(TextFault::OutOfMemory);
                }
                at = token.to;
            }
        }
    }
    Ok(found)
}
