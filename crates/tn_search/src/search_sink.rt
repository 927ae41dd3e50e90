// What a search keeps of the messages of one session.
use std::alloc::{AllocError, Allocator};
use std::hash::FoldHasher;
use tn_messages::KeptListings;
use tn_trace::SharedSink;

/// What a search keeps of the messages of one session: all in their order, or those of each process in theirs.
pub trait SearchSink<A: Allocator>: SharedSink<A> {
    ghost use Rattle.std.specs.Prelude.{◌≡◌, Bool, List, IfOk};
    ghost use Rattle.def_term.specs.Tree.{Tree};
    ghost use Rattle.tn_trace.specs.Slots.{EachPair};
    ghost use Rattle.tn_messages.specs.MessageViews.{kept_seen, kept_lists};
    ghost use Rattle.tn_search.specs.Sinks.{KeepSame};

    /// Whether it is by process.
    ghost is_by_process: { Bool };

    /// Whether it is by process.
    fn is_of_processes() -> bool
        ensures { result ≡ is_by_process };

    /// Whether the same is kept. Where it is false that may be so too.
    fn same(&self, other: &Self) -> bool
        ensures { KeepSame Self.keeps is_by_process self.now other.now result };

    /// Adds what is kept to a hash: the same adds the same.
    fn add_to(&self, hasher: &mut FoldHasher);

    /// What is kept of some sessions, by what is kept of each. Each message has one owner more.
    ///
    /// # Errors
    ///
    /// AllocError where memory was refused, or a count of owners is full.
    fn gather(alloc: A, sinks: &[Self]) -> Result<KeptListings<A>, AllocError>
        ensures { IfOk result (λ l. (mss : List (List Tree)) → EachPair (λ ms k. Self.keeps k ms) mss sinks.now →
            kept_seen l ≡ kept_lists is_by_process mss) };
}
