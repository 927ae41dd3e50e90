// Where an expression stands.

use std::alloc::Allocator;
use tn_spec::{Dialect, Position};

/// Where an expression stands, and the allocator of values that are computed of it.
#[derive(Clone, Copy)]
pub struct Scope<A: Allocator + Copy> {
    pub alloc: A,
    pub dialect: Dialect,
    pub part: Position,
}
