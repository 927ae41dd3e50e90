//! The allocator of a run: it counts the bytes that are in use, and refuses a block that would pass a bound.
//!
//! Depends on `logbook`, for the history that its count is of. Promises that it is an allocator, each of whose blocks
//! is one of the allocator below it, and has no more bytes than the bound; that its count is what is in use after a
//! history of blocks that were taken and given back, and always within the bound; and that a block is refused where the
//! history has no room for it, or where other threads came first 2^64 times.
#![tactic(auto)]

mod history;
mod within_memory;

pub use within_memory::WithinMemory;
