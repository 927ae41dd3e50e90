// Which runs are followed, by what is kept of them.
use crate::kept_listings::KeptListings;
use std::alloc::{AllocError, Allocator};

/// Which runs are followed, by what is kept of them.
pub trait RunFilter<A: Allocator> {
    ghost use Rattle.std.specs.Prelude.{◌≡◌, Bool, true, IfOk, IsTrue};
    ghost use Rattle.def_explore.specs.Rests.{KeptMessages};
    ghost use Rattle.tn_messages.specs.MessageViews.{kept_seen};

    /// What it admits.
    ghost admits: { Self → KeptMessages → Bool };

    /// Whether it admits all. Where it is false that may be so too.
    fn is_open(&self) -> bool
        ensures { IsTrue result → (kept : KeptMessages) → admits self.now kept ≡ true };

    /// Whether it admits what is kept of a run.
    ///
    /// # Errors
    ///
    /// AllocError where memory was refused.
    fn is_admitted(&self, alloc: A, kept: &KeptListings<A>) -> Result<bool, AllocError>
        ensures { IfOk result (λ b. admits self.now (kept_seen kept.now) ≡ b) };
}

/// Each run is followed.
pub struct AllRuns;

impl<A: Allocator> RunFilter<A> for AllRuns {
    ghost use Rattle.def_explore.specs.RunsToEnd.{all_runs};

    ghost admits = { λ filter. all_runs };

    fn is_open(&self) -> bool {
        true
    }

    fn is_admitted(&self, alloc: A, kept: &KeptListings<A>) -> Result<bool, AllocError> {
        Ok(true)
    }
}
