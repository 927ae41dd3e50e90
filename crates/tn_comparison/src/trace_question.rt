// What is asked about a trace.
use std::alloc::Allocator;
use tn_term::Term;

/// A trace of one session: its messages, as a node printed them.
#[derive(Drop)]
pub struct TraceQuestion<P: Allocator> {
    /// The trace messages, in the order of the trace.
    pub messages: Vec<Term<P>, P>,
    /// Whether the run may have more messages.
    pub goes_on: bool,
}
