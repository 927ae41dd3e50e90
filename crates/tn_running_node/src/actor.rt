// The process of an event, as a match specification sees it.
use std::alloc::Allocator;
use tn_term::Mfa;

/// The process of an event, and the function that called there, where it is a call ("Match Specifications in Erlang":
/// `self`, `caller`).
#[derive_where(Clone, Copy)]
pub struct Actor<'a, A: Allocator> {
    pub pid: u32,
    pub caller: Option<&'a Mfa<A>>,
}
