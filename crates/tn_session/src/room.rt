// Where an event is evaluated.
ghost use Rattle.std.specs.Prelude.{◌≡◌};
ghost use Rattle.tn_session.specs.Compilations.{compiled_seen};
ghost use Rattle.tn_session.specs.SharedSpecs.{shared_seen};

use crate::compiled_spec::CompiledSpec;
use crate::shared_spec::SharedSpec;
use bumpalo::Bump;
use std::alloc::Allocator;

/// Where one session evaluates one event: the arena for what is evaluated, and the specification by which it is, with
/// one owner more. A message borrows from both while the session's state changes. A room may be used again.
#[derive(Drop)]
pub struct Room<A: Allocator> {
    pub(crate) arena: Bump<A>,
    pub(crate) specification: Option<SharedSpec<A>>,
}

impl<A: Allocator> Room<A> {
    /// A room in which nothing was evaluated. It takes no memory.
    pub fn new(alloc: A) -> Room<A> {
        Room {
            arena: Bump::new(alloc),
            specification: None,
        }
    }
}

/// Gives the specification to this owner, and lends it. What was there before is given up.
pub(crate) fn keep<'a, A: Allocator + Copy>(
    owner: &'a mut Option<SharedSpec<A>>,
    specification: SharedSpec<A>,
) -> &'a CompiledSpec<A>
    ensures { compiled_seen result.now ≡ shared_seen specification }
{
    *owner = Some(specification);
    match owner {
        Some(kept) => kept.compiled_spec(),
        None => unreachable!(),
    }
}
