// Why a term is no specification.
ghost use Rattle.std.specs.Prelude.{◌≡◌};
ghost use Rattle.tn_spec.specs.declared.fault.SpecFault.TheVariants.{OutOfMemory};

use std::alloc::{AllocError, AllocFailed, Allocator};
use std::fmt;
use thiserror::Error;
use tn_term::Atom;

/// The first fault of a term that is read as a specification (own).
#[derive(Drop, Error)]
pub enum SpecFault<A: Allocator> {
    /// No specification of that dialect is so written.
    #[error("badarg")]
    Badarg,
    /// It calls a function of this name, which is not supported.
    #[error("unsupported function {}", .0.text())]
    Unsupported(Atom<A>),
    /// The term has 4,294,967,296 parts or more, which no script spells.
    #[error("too large")]
    TooLarge,
    /// The allocator refused memory. It says nothing of the term.
    #[error("out of memory")]
    OutOfMemory,
}

impl<A: Allocator> fmt::Debug for SpecFault<A> {
    fn fmt<W: fmt::Write>(&self, f: &mut fmt::Formatter<W>) -> fmt::Result {
        match self {
            SpecFault::Badarg => write!(f, "Badarg"),
            SpecFault::Unsupported(name) => write!(f, "Unsupported({:?})", name.text()),
            SpecFault::TooLarge => write!(f, "TooLarge"),
            SpecFault::OutOfMemory => write!(f, "OutOfMemory"),
        }
    }
}

impl<A: Allocator> From<AllocError> for SpecFault<A> {
    ghost from_gives = { λ _ e. e ≡ OutOfMemory };

    fn from(_refused: AllocError) -> SpecFault<A> {
        SpecFault::OutOfMemory
    }
}

impl<T: Drop, A: Allocator> From<AllocFailed<T>> for SpecFault<A> {
    ghost from_gives = { λ _ e. e ≡ OutOfMemory };

    fn from(_refused: AllocFailed<T>) -> SpecFault<A> {
        SpecFault::OutOfMemory
    }
}
