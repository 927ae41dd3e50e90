// How much an observer may have of a run.
ghost use Rattle.std.specs.Prelude.{◌≡◌, ◌<◌, ◌≤◌, true, false};
ghost use Rattle.tn_trace.specs.Transcripts.{bytes_in_all, slot_lines};

use crate::recorder::Recorder;
use crate::sinks::Lines;
use crate::slot::Slot;
use std::alloc::Allocator;

/// A bound on what an observer may have of a run.
pub trait Bound<O> {
    ghost use Rattle.std.specs.Prelude.{IsTrue, ◌↔◌};

    /// The observer has more than it may have.
    ghost exceeds: { Self → O → Type 0 };

    /// Whether the observer has more than it may have.
    fn is_exceeded(&self, observer: &O) -> bool
        ensures { IsTrue result ↔ exceeds self.now observer.now };
}

/// No bound: an observer may have all of a run.
#[derive(Clone, Copy)]
pub struct NoBound;

impl<O> Bound<O> for NoBound {
    ghost exceeds = { λ _ _. ⊥ };

    fn is_exceeded(&self, _observer: &O) -> bool {
        false
    }
}

/// The lines of all sessions together may have so many bytes.
#[derive(Clone, Copy)]
pub struct MostBytes {
    pub bytes: usize,
}

/// Whether the lines of all sessions together have more than so many bytes.
fn is_longer<A: Allocator>(slots: &[Slot<A, Lines<A>>], most: usize) -> bool
    ensures longer { result ≡ true → most < bytes_in_all (slot_lines slots.now) }
    ensures within { result ≡ false → bytes_in_all (slot_lines slots.now) ≤ most }
{
    let mut room = most;
    for slot in slots {
        let bytes = slot.kept.text.len();
        if bytes > room {
            return true;
        }
        room -= bytes;
    }
    false
}

impl<A: Allocator> Bound<Recorder<A, Lines<A>>> for MostBytes {
    ghost use Rattle.tn_trace.specs.Bounds.{HasMoreBytes};

    ghost exceeds = { HasMoreBytes };

    fn is_exceeded(&self, observer: &Recorder<A, Lines<A>>) -> bool {
        is_longer(&observer.slots, self.bytes)
    }
}
