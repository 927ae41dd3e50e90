// An allocator within a bound.
ghost use Rattle.std.specs.Prelude.{◌≡◌};
ghost use Rattle.tn_memory.specs.Memory.{memory_inner, memory_most};

use crate::history::{Account, charge, release};
use std::alloc::{AllocError, Allocator};

/// An allocator that passes each call on to another one, as long as the bytes in use stay within a bound. Threads may
/// share it.
#[derive(Drop)]
pub struct WithinMemory<B> {
    inner: B,
    account: Account,
}

impl<B> WithinMemory<B> {
    /// An allocator of at most so many bytes of another one, none of which is in use yet.
    pub fn of(inner: B, most: u64) -> WithinMemory<B>
        ensures inner { memory_inner result ≡ inner }
        ensures most { memory_most result ≡ most }
    {
        WithinMemory {
            inner,
            account: Account::new(most),
        }
    }
}

unsafe impl<B: Allocator> Allocator for WithinMemory<B> {
    ghost use Rattle.tn_memory.specs.Memory.{within_token};

    ghost dealloc_token = { within_token B.dealloc_token };

    fn allocate(&self, size: usize, align: usize) -> Result<*mut u8, AllocError> {
        if charge(&self.account, size) {
            match self.inner.allocate(size, align) {
                Ok(block) => Ok(block),
                Err(error) => {
                    release(&self.account, size);
                    Err(error)
                }
            }
        } else {
            Err(AllocError)
        }
    }

    unsafe fn deallocate(&self, ptr: *mut u8, size: usize, align: usize) {
        self.inner.deallocate(ptr, size, align);
        release(&self.account, size);
    }
}
