// The processes of a node as a part of its state.
ghost use Rattle.std.specs.Prelude.{◌≡◌, ◌↔◌, IfOk, IsTrue};
ghost use Rattle.def_node.specs.Node as node;
ghost use Rattle.tn_node.specs.Worlds.{world_of};

use crate::world::World;
use std::alloc::{AllocError, Allocator};
use std::hash::FoldHasher;
use tn_process::StatePart;

impl<A: Allocator + Copy> StatePart<A> for World<A> {
    ghost Seen = { node.World };

    ghost seen = { world_of };

    fn share(&self, alloc: A) -> Result<Self, AllocError> {
        let slots = self.slots.share(alloc)?;
        Ok(World { slots })
    }

    fn same(&self, other: &Self) -> bool {
        self.slots.same(&other.slots)
    }

    fn add_to(&self, hasher: &mut FoldHasher) {
        self.slots.add_to(hasher);
    }
}
