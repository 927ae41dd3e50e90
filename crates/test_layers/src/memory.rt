// The allocator of a run: where it refuses a block, and that a block counts no more once it was given back.
use std::alloc::{AllocError, Global};
use std::test::Fail;
use tn_memory::WithinMemory;

/// Bytes in the memory of a run.
type Bytes<'a> = Vec<u8, &'a WithinMemory<Global>>;

/// A block of so many bytes.
fn block(heap: &WithinMemory<Global>, size: usize) -> Result<Bytes<'_>, AllocError> {
    Vec::with_capacity(heap, size)
}

/// In 100 bytes there is room for 60 and 40, and for no more until one of the two was given back.
#[test]
fn blocks_within_a_bound(rt: HostRuntime) -> Result<(), Fail> {
    let heap = WithinMemory::of(rt.alloc(), 100);
    assert!(rt; block(&heap, 101).is_err());
    let first = block(&heap, 60)?;
    let second = block(&heap, 40)?;
    assert!(rt; block(&heap, 1).is_err());
    drop(first);
    assert!(rt; block(&heap, 61).is_err());
    let third = block(&heap, 60)?;
    assert!(rt; block(&heap, 1).is_err());
    drop(second);
    drop(third);
    let whole = block(&heap, 100)?;
    assert!(rt; whole.capacity() == 100);
    Ok(())
}
