// Tokens of a fun's text.

use crate::operator::Operator;

/// What a token of a fun is (own). Its bytes say which integer, atom, string or variable; a character
/// has its code.
#[derive(Clone, Copy)]
pub enum Kind {
    OpenParen,
    CloseParen,
    OpenBracket,
    CloseBracket,
    OpenBrace,
    CloseBrace,
    Comma,
    Semicolon,
    Bar,
    Arrow,
    Match,
    Fun,
    When,
    End,
    FullStop,
    Operator(Operator),
    Digits,
    Character(u8),
    Bare,
    Quoted,
    Characters,
    Variable,
    /// A word or a symbol that Erlang has and this profile hasn't; its bytes are its name.
    LeftOut,
    Float,
    OtherNumber,
    /// All bytes to the end, where they begin with no token.
    Bad,
}

/// A token of a text (own): what it is, and the offsets in bytes of its first byte and of the byte
/// after it.
#[derive(Clone, Copy)]
pub struct Token {
    pub kind: Kind,
    pub from: usize,
    pub to: usize,
}
