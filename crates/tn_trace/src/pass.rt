// The picks of one pass.
ghost use Rattle.std.specs.Prelude.{◌≡◌, IfOk};
ghost use Rattle.def_run.specs.Round.{pass};

use std::alloc::{AllocError, Allocator};

/// The picks of one pass: the control list, and then each of the processes 100 to 163.
///
/// # Errors
///
/// AllocError where memory was refused.
pub fn pass_picks<A: Allocator + Copy>(alloc: A) -> Result<Vec<u32, A>, AllocError>
    ensures { IfOk result (λ v. v.items ≡ pass) }
{
    let mut picks = Vec::new(alloc);
    picks.push(0)?;
    for pid in 100..164u32 {
        picks.push(pid)?;
    }
    Ok(picks)
}
