// Why a text has no specification.
ghost use Rattle.std.specs.Prelude.{◌≡◌};
ghost use Rattle.tn_translation.specs.Faults.{reading_fault};

use std::alloc::{AllocError, AllocFailed};
use tn_fun::{ReadFault, Token};

/// Why a text has no specification (own). A place is an offset in bytes, from 0; a token is one of the
/// text, and the refusal is at its first byte.
#[derive(Clone, Copy)]
pub enum FunFault {
    /// Refusal 1: the text has more than 1,048,576 bytes.
    TooLong,
    /// Refusal 2: the tokens up to this one begin no fun, or the text ends before its fun does.
    Token { at: usize },
    /// Refusal 21: the same, of a token that this profile leaves out, of `fun` and of `=`.
    NoSuch(Token),
    /// Refusal 3: this token nests too deep, or the term of this part of the fun does.
    TooDeep { at: usize },
    /// Refusal 4: another limit is passed here.
    TooLarge { at: usize },
    /// Refusal 22: the head doesn't bind this variable.
    Unbound(Token),
    /// Refusal 23: no function of this name with so many arguments may be called there.
    NoFunction(Token, usize),
    /// Refusal 24: the model leaves the function of this name out.
    Unsupported(Token),
    /// Refusal 25: a head has no atom of `$` and a number.
    HeadAtom(Token),
    /// Refusal 26: what is after `|` is neither a list nor strings.
    ListWithTail { at: usize },
    /// Refusal 27: the operand of this `-` isn't computed.
    MinusAlone { at: usize },
    /// Refusal 28: both parts of a head are this variable.
    WholeHead(Token),
    /// The allocator refused memory. It says nothing of the text.
    OutOfMemory,
}

impl From<AllocError> for FunFault {
    ghost use Rattle.tn_translation.specs.declared.fault.FunFault.TheVariants.{OutOfMemory};

    ghost from_gives = { λ _ e. e ≡ OutOfMemory };

    fn from(_refused: AllocError) -> FunFault {
        FunFault::OutOfMemory
    }
}

impl<T: Drop> From<AllocFailed<T>> for FunFault {
    ghost use Rattle.tn_translation.specs.declared.fault.FunFault.TheVariants.{OutOfMemory};

    ghost from_gives = { λ _ e. e ≡ OutOfMemory };

    fn from(_refused: AllocFailed<T>) -> FunFault {
        FunFault::OutOfMemory
    }
}

impl From<ReadFault> for FunFault {
    ghost from_gives = { λ f e. e ≡ reading_fault f };

    fn from(fault: ReadFault) -> FunFault {
        match fault {
            ReadFault::TooLong => FunFault::TooLong,
            ReadFault::Token { at } => FunFault::Token { at },
            ReadFault::NoSuch(token) => FunFault::NoSuch(token),
            ReadFault::TooDeep { at } => FunFault::TooDeep { at },
            ReadFault::TooLarge { at } => FunFault::TooLarge { at },
            ReadFault::OutOfMemory => FunFault::OutOfMemory,
        }
    }
}
