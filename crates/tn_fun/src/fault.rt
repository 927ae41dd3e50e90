// Why a text is no fun.

use crate::token::Token;

/// Why a text is no fun (own). A place is an offset in bytes, from 0.
#[derive(Clone, Copy)]
pub enum ReadFault {
    /// Refusal 1: the text has more than 1,048,576 bytes.
    TooLong,
    /// Refusal 2: the tokens up to this one begin no fun, or the text ends before its fun does.
    Token { at: usize },
    /// Refusal 21: the same, of a token that this profile leaves out, of `fun` and of `=`.
    NoSuch(Token),
    /// Refusal 3: this token would nest deeper than 64 levels.
    TooDeep { at: usize },
    /// Refusal 4: this token passes another limit on funs.
    TooLarge { at: usize },
    /// The allocator refused memory. It says nothing of the text.
    OutOfMemory,
}
