//! An allocator for tests, which refuses one growth.
//!
//! Depends on nothing. It promises that it is an allocator, which refuses where it says.
#![tactic(auto)]

ghost use Rattle.std.specs.Prelude.{◌≡◌, IfSome};

use std::alloc::{AllocError, Allocator};
use std::cell::Cell;

/// Passes each call on to another allocator, but for the one growth that it refuses.
#[derive(Drop)]
pub struct Quota<B> {
    inner: B,
    left: Cell<u64>,
}

impl<B> Quota<B> {
    /// Refuses the growth that comes after `served` others.
    pub fn after(inner: B, served: u64) -> Quota<B> {
        Quota {
            inner,
            left: Cell::new(served),
        }
    }

    /// Whether a growth has been refused.
    pub fn has_refused(&self) -> bool {
        self.left.get() == u64::MAX
    }

    // The handle after this one, unless the call is the one to refuse.
    fn serve(&self) -> Option<&B>
        ensures { IfSome result (λ h. h.now ≡ self.now.inner) }
    {
        if is_refused(&self.left) {
            None
        } else {
            Some(&self.inner)
        }
    }
}

// Counts a call. After the refusal the count stays at `u64::MAX`, and no other call is refused.
fn is_refused(left: &Cell<u64>) -> bool {
    let served = left.get();
    if served == u64::MAX {
        return false;
    }
    left.set(if served == 0 { u64::MAX } else { served - 1 });
    served == 0
}

unsafe impl<B: Allocator> Allocator for Quota<B> {
    ghost dealloc_token = { λ heap ty ptr. B.dealloc_token heap.inner ty ptr };

    fn allocate(&self, size: usize, align: usize) -> Result<*mut u8, AllocError> {
        match self.serve() {
            Some(heap) => heap.allocate(size, align),
            None => Err(AllocError),
        }
    }

    unsafe fn deallocate(&self, ptr: *mut u8, size: usize, align: usize) {
        self.inner.deallocate(ptr, size, align);
    }
}
