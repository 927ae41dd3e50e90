// A state of a run, with the journal that led to it.
use std::alloc::{AllocError, Allocator};
use std::hash::Hash;

/// A node with its sessions and what is kept of their messages, and the journal that led there. A filter says which
/// runs are followed.
pub trait SearchState<A: Allocator>: Sized + Drop {
    ghost use Rattle.std.specs.Prelude.{◌≡◌, ℕ, List, IfOk};
    ghost use Rattle.def_explore.specs.Rests.{KeptMessages};
    ghost use Rattle.tn_explore.specs.Query.{Query};
    ghost use Rattle.tn_explore.specs.SearchStates.{IsCopy, AdvancesState, HasEnoughPicks, IsAdmitted, AreSame};
    ghost use Rattle.tn_explore.specs.SearchStates.{KeepsFor, EqualsByKept};

    /// What all states of a search have in common, as the program of a run.
    type Context;

    /// What says which runs are followed.
    type Filter;

    /// What is kept of its messages.
    type Observation: Eq + Hash + Drop;

    /// Its journal.
    ghost journal: { Self → List ℕ };

    /// It is where its journal leads in this program, with what is kept for this question.
    ghost is_of: { Self.Context → Self → Query → Type 0 };

    /// The filter admits what is admitted for this question.
    ghost filters: { Self.Filter → Query → Type 0 };

    /// What the definitions keep.
    ghost kept_seen: { Self.Observation → KeptMessages };

    /// The picks that are tried: those that may move; where picks are left out, perhaps such alone as are independent
    /// of all others.
    fn picks(
        &self,
        alloc: A,
        context: &Self::Context,
        leaves_out: bool,
    ) -> Result<Vec<u32, A>, AllocError>
        ensures { IfOk result (λ v. HasEnoughPicks journal (is_of context.now) leaves_out self.now v.items) };

    /// Whether the filter admits what is kept of its messages. Where it doesn't, the run ends there.
    fn is_admitted(&self, alloc: A, filter: &Self::Filter) -> Result<bool, AllocError>
        ensures { IfOk result (λ b. (x : Self.Context) → IsAdmitted journal (is_of x) filters filter.now self.now b) };

    /// The same state, which shares what this one has.
    fn share(&self) -> Result<Self, AllocError>
        ensures { IfOk result (λ s. (x : Self.Context) → IsCopy journal (is_of x) self.now s) };

    /// Takes one more pick: whether it moved.
    fn advance(&mut self, context: &Self::Context, pick: u32) -> Result<bool, AllocError>
        ensures { IfOk result (AdvancesState journal (is_of context.now) pick self.old self.new) };

    /// Whether both are the same state. Where it is false they may be the same too.
    fn same(&self, other: &Self) -> bool
        ensures { (x : Self.Context) → AreSame journal (is_of x) self.now other.now result };

    /// A number that is the same for the same states, and mostly another for others.
    fn fingerprint(&self) -> usize;

    /// What is kept of its messages.
    fn observe(&self, alloc: A) -> Result<Self::Observation, AllocError>
        ensures { IfOk result (λ m. (x : Self.Context) → KeepsFor journal (is_of x) kept_seen self.now m) };

    /// The picks of its journal.
    fn copy_journal(&self, alloc: A) -> Result<Vec<u32, A>, AllocError>
        ensures { IfOk result (λ v. v.items ≡ journal self.now) };

    /// Two of what is kept are equal where the same is kept, and nowhere else.
    ghost equals: { EqualsByKept Self.Observation.eq kept_seen };
}
