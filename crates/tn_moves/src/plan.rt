// What is taken in a run of a program.
use crate::directive::Directive;
use std::alloc::Allocator;
use tn_trace::JOURNAL;

/// What is taken in a run of a program.
#[derive(Drop)]
pub enum Plan<'a, A: Allocator> {
    /// These picks.
    Picks(&'a [u32]),
    /// Those of directives, in order, of which so many may move; a limit past 65,536 counts as that.
    Directives {
        limit: u32,
        directives: Vec<Directive, A>,
    },
}

impl<A: Allocator> Plan<'_, A> {
    ghost use Rattle.std.specs.Prelude.{◌≡◌};
    ghost use Rattle.tn_moves.specs.Plans.{plan_limit};

    /// How many picks may move.
    pub(crate) fn limit(&self) -> u32
        ensures { result ≡ plan_limit self.now }
    {
        match self {
            Plan::Picks(_) => JOURNAL as u32,
            Plan::Directives { limit, .. } => *limit,
        }
    }
}
