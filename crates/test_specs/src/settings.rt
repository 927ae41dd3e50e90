// The settings of functions, with each growth of memory refused in turn: a command that was refused is set again.
use linked_list_allocator::LocalHeap;
use std::alloc::{AllocError, Allocator};
use std::test::Fail;
use test_allocator::Quota;
use tn_index::{FunctionPattern, FunctionSetting, Setting, Settings};
use tn_term::{Atom, Mfa};

/// More growths than any of these walks needs.
const ENOUGH: u64 = 10_000;

/// How many commands are set: the last one finds no room that an earlier one took.
const COMMANDS: usize = 9;

/// The exported function m:f/1.
fn functions<A: Allocator + Copy>(alloc: A) -> Result<Vec<(Mfa<A>, bool), A>, AllocError> {
    let module = Atom::of(alloc, "m")?;
    let name = Atom::of(alloc, "f")?;
    let mut functions = Vec::new(alloc);
    functions.push((
        Mfa {
            module,
            name,
            arity: 1,
        },
        true,
    ))?;
    Ok(functions)
}

/// A command for all functions; it takes no memory.
fn command<A: Allocator>(number: usize) -> FunctionSetting<usize, A> {
    FunctionSetting {
        covered: FunctionPattern::Every,
        setting: Setting::Specification(number),
        local: true,
    }
}

/// Sets each command in turn. One that was refused is set again. It says how many were set by the last refusal.
fn walk<A: Allocator + Copy>(alloc: A) -> Result<usize, AllocError> {
    let functions = functions(alloc)?;
    let mut settings = Settings::new(alloc);
    let mut refused = 0;
    for number in 1..=COMMANDS {
        if settings.set(&functions, command(number)).is_err() {
            settings.set(&functions, command(number))?;
            refused = number;
        }
    }
    Ok(refused)
}

/// Each block is given back. In some walk the last command was refused, and in the last walk none.
#[test]
fn growths_refused(rt: HostRuntime) -> Result<(), Fail> {
    let memory = LocalHeap::new(rt.alloc(), 1 << 16)?;
    let before = memory.used();
    let mut last = 0;
    for served in 0..ENOUGH {
        let heap = Quota::after(&memory, served);
        let walked = walk(&heap);
        assert_eq!(rt; memory.used(), before);
        if !heap.has_refused() {
            assert_eq!(rt; walked, Ok(0));
            assert_eq!(rt; last, COMMANDS);
            return Ok(());
        }
        last = last.max(walked.unwrap_or(0));
    }
    panic!(rt; "each walk was refused memory")
}
