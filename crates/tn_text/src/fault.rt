// Why a text is refused.
use thiserror::Error;

/// Why a text is refused (own). A place is an offset in bytes, from 0.
#[derive(Clone, Copy, Debug, PartialEq, Eq, Drop, Error)]
pub enum TextFault {
    /// Refusal 1: the text has more than 1,048,576 bytes.
    #[error("the text is too long")]
    TooLong,
    /// Refusal 2: the tokens up to this one begin nothing that may be read, or no token stands there.
    #[error("no term goes on so at {at}")]
    Token { at: usize },
    /// Refusal 3: this token would nest deeper than 32 levels.
    #[error("too deep at {at}")]
    TooDeep { at: usize },
    /// Refusal 4: this token passes another limit on terms.
    #[error("too large at {at}")]
    TooLarge { at: usize },
    /// The allocator refused memory. It says nothing of the text.
    #[error("out of memory")]
    OutOfMemory,
}
