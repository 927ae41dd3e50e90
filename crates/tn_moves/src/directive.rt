// What should run.

/// Which picks are taken next.
#[derive(Clone, Copy, Debug, PartialEq, Eq, Drop)]
pub enum Directive {
    /// So many of one.
    Times { count: u32, pick: u32 },
    /// Those of one until it is idle.
    UntilIdle(u32),
    /// Passes of all until nothing moves.
    Everybody,
}
