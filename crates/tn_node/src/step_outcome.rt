// What a pick comes to.
use std::alloc::Allocator;
use tn_flags::Event;

/// What a pick comes to.
#[derive(Drop)]
pub enum Moved<A: Allocator> {
    /// A step of a process, with its events in order.
    Moved(Vec<Event<A>, A>),
    /// The control list's next command, by its number from 1.
    Control(u64),
    /// Nothing moved.
    Idle,
}
