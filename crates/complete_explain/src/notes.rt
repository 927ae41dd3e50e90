// What a running node does otherwise in a run, and what is remarked of its commands.
ghost use Rattle.std.specs.Prelude.{◌≡◌, IfOk};
ghost use Rattle.tn_program.specs.Views.{program_of};
ghost use Rattle.tn_refusal.specs.Starts.{IsListable};
ghost use Rattle.tn_trace.specs.Transcripts.{transcript_of};

use std::alloc::{AllocError, Allocator};
use tn_moves::Schedule;
use tn_program::Program;
use tn_replay::{NodeNote, RunNotes};
use tn_run::Denial;
use tn_trace::Transcript;

/// `tn_replay::can_differ` has one answer for one program.
pub fn can_differ<A: Allocator + Copy>(
    alloc: A,
    first: &Program<A>,
    second: &Program<A>,
) -> (Result<bool, AllocError>, Result<bool, AllocError>)
    requires { program_of first.now ≡ program_of second.now }
    ensures { IfOk result.0 (λ b. IfOk result.1 (λ c. b ≡ c)) }
{
    (
        tn_replay::can_differ(alloc, first),
        tn_replay::can_differ(alloc, second),
    )
}

/// `tn_replay::node_note` has one answer for one program and the same picks.
pub fn node_note<A: Allocator + Copy>(
    alloc: A,
    first: &Program<A>,
    second: &Program<A>,
    picks: &[u32],
) -> (
    Result<Option<NodeNote>, AllocError>,
    Result<Option<NodeNote>, AllocError>,
)
    requires { program_of first.now ≡ program_of second.now }
    ensures { IfOk result.0 (λ n. IfOk result.1 (λ m. n ≡ m)) }
{
    (
        tn_replay::node_note(alloc, first, picks),
        tn_replay::node_note(alloc, second, picks),
    )
}

/// `tn_replay::text_note` has one answer for one text and the same picks.
pub fn text_note<A: Allocator + Copy>(
    alloc: A,
    text: &[u8],
    picks: &[u32],
) -> (
    Result<Option<NodeNote>, Denial>,
    Result<Option<NodeNote>, Denial>,
)
    ensures { IfOk result.0 (λ n. IfOk result.1 (λ m. n ≡ m)) }
{
    (
        tn_replay::text_note(alloc, text, picks),
        tn_replay::text_note(alloc, text, picks),
    )
}

/// `tn_replay::text_has_remarks` has one answer for one text and the same picks.
pub fn text_has_remarks<A: Allocator + Copy>(
    alloc: A,
    text: &[u8],
    picks: &[u32],
) -> (Result<bool, Denial>, Result<bool, Denial>)
    ensures { IfOk result.0 (λ b. IfOk result.1 (λ c. b ≡ c)) }
{
    (
        tn_replay::text_has_remarks(alloc, text, picks),
        tn_replay::text_has_remarks(alloc, text, picks),
    )
}

/// `tn_replay::remark_lines` has one answer for one text of tokens, its name and the same picks.
pub fn remark_lines<A: Allocator + Copy>(
    alloc: A,
    name: &str,
    text: &[u8],
    picks: &[u32],
) -> (Result<Vec<u8, A>, Denial>, Result<Vec<u8, A>, Denial>)
    ensures { IsListable text.now → IfOk result.0 (λ v. IfOk result.1 (λ w. v.items ≡ w.items)) }
{
    (
        tn_replay::remark_lines(alloc, name, text, picks),
        tn_replay::remark_lines(alloc, name, text, picks),
    )
}

/// `tn_replay::schedule_remark_lines` has one answer for one text of tokens, its name and the same schedule.
pub fn schedule_remark_lines<A: Allocator + Copy>(
    alloc: A,
    name: &str,
    text: &[u8],
    schedule: &Schedule<'_>,
) -> (Result<Vec<u8, A>, Denial>, Result<Vec<u8, A>, Denial>)
    ensures { IsListable text.now → IfOk result.0 (λ v. IfOk result.1 (λ w. v.items ≡ w.items)) }
{
    (
        tn_replay::schedule_remark_lines(alloc, name, text, schedule),
        tn_replay::schedule_remark_lines(alloc, name, text, schedule),
    )
}

/// `tn_replay::schedule_has_remarks` has one answer for one text and the same schedule.
pub fn schedule_has_remarks<A: Allocator + Copy>(
    alloc: A,
    text: &[u8],
    schedule: &Schedule<'_>,
) -> (Result<bool, Denial>, Result<bool, Denial>)
    ensures { IfOk result.0 (λ b. IfOk result.1 (λ c. b ≡ c)) }
{
    (
        tn_replay::schedule_has_remarks(alloc, text, schedule),
        tn_replay::schedule_has_remarks(alloc, text, schedule),
    )
}

/// `tn_replay::has_no_forms` has one answer for one text.
pub fn has_no_forms(text: &[u8]) -> (bool, bool)
    ensures { result.0 ≡ result.1 }
{
    (tn_replay::has_no_forms(text), tn_replay::has_no_forms(text))
}

/// `tn_replay::notes_of` has one answer, of transcripts of the program's run by some picks.
pub fn notes_of<A: Allocator + Copy>(
    alloc: A,
    program: &Program<A>,
    one: &Transcript<A>,
    other: &Transcript<A>,
    picks: &[u32],
) -> (Result<RunNotes, AllocError>, Result<RunNotes, AllocError>)
    requires one { one.now ≡ transcript_of (program_of program.now) picks.now }
    requires other { other.now ≡ transcript_of (program_of program.now) picks.now }
    ensures { IfOk result.0 (λ n. IfOk result.1 (λ m. n ≡ m)) }
{
    (
        tn_replay::notes_of(alloc, program, one),
        tn_replay::notes_of(alloc, program, other),
    )
}
