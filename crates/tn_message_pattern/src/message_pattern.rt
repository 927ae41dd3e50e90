// A pattern of trace messages, and what is asked about it.
use bumpalo::Bump;
use smallvec::SmallVec;
use std::alloc::{AllocError, Allocator};
use tn_guard::Value;
use tn_head::bind_on;
use tn_spec::Pattern;
use tn_term::Term;

/// A pattern of trace messages, with the term that it is.
#[derive(Drop)]
pub struct MessagePattern<A: Allocator> {
    pub term: Term<A>,
    pub pattern: Pattern<A>,
}

impl<A: Allocator> MessagePattern<A> {
    ghost use Rattle.std.specs.Prelude.{◌≡◌, IfOk};
    ghost use Rattle.def_explore.specs.Words.{is_match};
    ghost use Rattle.tn_spec.specs.Views.{pattern_seen};
    ghost use Rattle.tn_term.specs.Views.{tree_of};

    /// Whether a message matches ("Match Specifications in Erlang", "Grammar").
    ///
    /// # Errors
    ///
    /// AllocError where memory for the values of its variables was refused.
    pub fn matches<B: Allocator>(
        &self,
        arena: &Bump<B>,
        message: &Term<B>,
    ) -> Result<bool, AllocError>
        ensures { IfOk result (λ m. m ≡ is_match (pattern_seen self.now.pattern) (tree_of message.now)) }
    {
        let mut bound = SmallVec::new(arena);
        bind_on(&self.pattern, Value::Lent(message), &mut bound)
    }
}

/// Which word a pattern must have: any, or this one.
#[derive(Clone, Copy, Debug, PartialEq, Eq)]
pub enum Demand {
    Any,
    Always,
    Never,
    Sometimes,
}

/// A pattern that is asked about, and which word it must have.
#[derive(Drop)]
pub struct PatternQuestion<A: Allocator> {
    pub pattern: MessagePattern<A>,
    pub demand: Demand,
}
