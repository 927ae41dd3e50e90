// The output of a program.
ghost use Rattle.std.specs.Prelude.{◌≡◌, IfOk};
ghost use Rattle.tn_program.specs.Views.{program_of};
ghost use Rattle.tn_trace.specs.Transcripts.{transcript_of};

use std::alloc::{AllocError, Allocator};
use tn_program::Program;
use tn_trace::Transcript;

/// `tn_listing::transcript_output` has one answer, of transcripts of the program's run by some picks.
pub fn transcript_output<A: Allocator + Copy>(
    alloc: A,
    one: Transcript<A>,
    other: Transcript<A>,
    program: &Program<A>,
    picks: &[u32],
) -> (
    Result<Vec<u8, A>, AllocError>,
    Result<Vec<u8, A>, AllocError>,
)
    requires one { one ≡ transcript_of (program_of program.now) picks.now }
    requires other { other ≡ transcript_of (program_of program.now) picks.now }
    ensures { IfOk result.0 (λ v. IfOk result.1 (λ w. v.items ≡ w.items)) }
{
    let first = tn_listing::transcript_output(alloc, one, program);
    let second = tn_listing::transcript_output(alloc, other, program);
    (first, second)
}
