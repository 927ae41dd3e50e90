// What is told of each turn.

/// What is told of each worker's turns. Its calls run in the workers' threads.
pub trait Gate: Sync {
    /// The worker with this number has taken a token, and its step comes next.
    fn before_turn(&self, worker: u32);

    /// The worker's step was answered, and the token isn't given back yet.
    fn after_turn(&self, worker: u32);
}

/// A gate that lets each turn pass.
#[derive(Drop)]
pub struct Open;

impl Gate for Open {
    fn before_turn(&self, _worker: u32) {}

    fn after_turn(&self, _worker: u32) {}
}
