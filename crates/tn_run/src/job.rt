// What is done with a script, and how it is done with a reader and a writer.
ghost use Rattle.std.specs.Prelude.{IfOk, IfErr};
ghost use Rattle.tn_refusal.specs.Refusals.{refusal_of};
ghost use Rattle.tn_run.specs.Jobs.{IsOfNoEnd, IsReadingOf, IsRefusalReading, Meets, Prepares, ReadsScript};

use crate::acceptance::accept;
use crate::ends::{read_text, write_output};
use crate::fault::RunFault;
use crate::refusal_form::{RefusalForm, refusal_output};
use std::alloc::Allocator;
use std::fmt::Display;
use std::io::{Read, Write};
use tn_listing::PicksFault;
use tn_program::Program;
use tn_refusal::{Denial, Refusal};
use tn_text::{MAX_TEXT, Watched};

/// Something that is done with a script: it has an outcome, and an output that is written.
pub trait Job<A: Allocator + Copy> {
    ghost use Rattle.std.specs.Prelude.{◌≡◌, ℕ, List, IfOk, IsErrOf};
    ghost use Rattle.tn_listing.specs.declared.picks.PicksFault.{PicksFault};
    ghost use Rattle.tn_refusal.specs.Refusals.{refusal_of};
    ghost use Rattle.tn_run.specs.Jobs.{JobView, IsRefusalOutcome, failed_end};

    /// What was written.
    type Outcome: Drop;

    /// Why nothing was written, or not all of it.
    type Fault: Display + Drop;

    /// What it gives for a script, and of which end its faults are.
    ghost view: { Self → JobView Self.Outcome Self.Fault };

    /// It is done by these picks.
    ghost takes: { Self → List ℕ → Type 0 };

    /// The picks that it is done by, which are read before the script; none where it makes its own.
    ///
    /// # Errors
    ///
    /// BadPicks where the job is refused before the script is read.
    fn picks(&self, alloc: A) -> Result<Vec<u32, A>, PicksFault>
        ensures picks { IfOk result (λ picks. takes self.now picks.items) }
        ensures reads { IfOk result (λ picks. (view self.now).reads) }
        ensures refused { IsErrOf result PicksFault.BadPicks → (view self.now).reads → ⊥ };

    /// The outcome of a refusal, and the form of what is written for it.
    fn refusal_outcome(&self, alloc: A, refusal: Refusal) -> (Self::Outcome, RefusalForm)
        ensures { IsRefusalOutcome (view self.now) (refusal_of refusal) result.0 result.1 };

    /// Whether the outcome is what was asked for: no refusal, and nothing that is lacking.
    fn succeeds(&self, outcome: &Self::Outcome) -> bool
        ensures { result ≡ (view self.now).succeeds outcome.now };

    /// The fault of a reader, of a writer or of memory.
    fn fault_of(&self, fault: RunFault) -> Self::Fault
        ensures { (view self.now).end_of result ≡ failed_end fault };
}

/// A job that is done on the caller's thread.
pub trait DirectJob<A: Allocator + Copy>: Job<A> {
    ghost use Rattle.std.specs.Prelude.{IfOk, IfErr};
    ghost use Rattle.tn_program.specs.Views.{program_of};
    ghost use Rattle.tn_run.specs.Jobs.{IsAnswerWithin, IsOfNoEnd, IsProgramAnswer};

    /// The outcome and the output for the program of an accepted script.
    ///
    /// # Errors
    ///
    /// A fault of no end.
    fn answer(
        &self,
        alloc: A,
        picks: &[u32],
        program: &Program<A>,
    ) -> Result<(Self::Outcome, Vec<u8, A>), Self::Fault>
        requires { Self.takes self.now picks.now }
        ensures given { IfOk result (λ r. IsProgramAnswer (Self.view self.now) (program_of program.now) r.0 r.1.items) }
        ensures fault { IfErr result (IsOfNoEnd (Self.view self.now)) };

    /// The same, or None where the output has more than so many bytes. A job that can't say so before its output is
    /// whole gives the output.
    ///
    /// # Errors
    ///
    /// A fault of no end.
    fn answer_within(
        &self,
        alloc: A,
        picks: &[u32],
        program: &Program<A>,
        most: usize,
    ) -> Result<Option<(Self::Outcome, Vec<u8, A>)>, Self::Fault>
        requires { Self.takes self.now picks.now }
        ensures given { IfOk result (IsAnswerWithin most (Self.view self.now) (program_of program.now)) }
        ensures fault { IfErr result (IsOfNoEnd (Self.view self.now)) }
    {
        Ok(Some(self.answer(alloc, picks, program)?))
    }
}

/// What was read: the picks and the program, or what a refusal gives.
#[derive(Drop)]
pub enum Reading<O: Drop, A: Allocator> {
    Accepted {
        picks: Vec<u32, A>,
        program: Program<A>,
    },
    Refused {
        outcome: O,
        text: Vec<u8, A>,
    },
}

/// The outcome of a refusal of a text, and what is written for it.
fn refuse<A: Allocator + Copy, J: Job<A>>(
    alloc: A,
    job: &J,
    text: &[u8],
    refusal: Refusal,
) -> Result<Reading<J::Outcome, A>, J::Fault>
    ensures given { IfOk result (IsRefusalReading (J.view job.now) text.now (refusal_of refusal)) }
    ensures fault { IfErr result (IsOfNoEnd (J.view job.now)) }
{
    let (outcome, form) = job.refusal_outcome(alloc, refusal);
    match refusal_output(alloc, form, text, refusal) {
        Ok(text) => Ok(Reading::Refused { outcome, text }),
        Err(_) => Err(job.fault_of(RunFault::OutOfMemory)),
    }
}

/// What a whole text comes to, with these picks.
fn accept_text<A: Allocator + Copy, J: Job<A>>(
    alloc: A,
    job: &J,
    picks: Vec<u32, A>,
    text: &[u8],
) -> Result<Reading<J::Outcome, A>, J::Fault>
    requires picks { J.takes job.now picks.items }
    requires reads { (J.view job.now).reads }
    ensures given { IfOk result (IsReadingOf (J.view job.now) (J.takes job.now) text.now) }
    ensures fault { IfErr result (IsOfNoEnd (J.view job.now)) }
{
    match accept(alloc, text) {
        Ok(program) => Ok(Reading::Accepted { picks, program }),
        Err(Denial::Refused(refusal)) => refuse(alloc, job, text, refusal),
        Err(Denial::OutOfMemory) => Err(job.fault_of(RunFault::OutOfMemory)),
    }
}

/// What the script that the reader holds comes to, with these picks.
fn read_with<A: Allocator + Copy, J: Job<A>, R: Read>(
    alloc: A,
    job: &J,
    picks: Vec<u32, A>,
    reader: &mut Watched<R>,
) -> Result<Reading<J::Outcome, A>, J::Fault>
    requires picks { J.takes job.now picks.items }
    requires reads { (J.view job.now).reads }
    ensures { ReadsScript (J.view job.now) (J.takes job.now) R.remaining reader.old reader.new result }
{
    let text = match read_text(alloc, reader) {
        Ok(text) => text,
        Err(fault) => return Err(job.fault_of(fault)),
    };
    if text.len() > MAX_TEXT {
        return refuse(alloc, job, &text, Refusal::TooLong);
    }
    accept_text(alloc, job, picks, &text)
}

/// What the picks of a job and the script that the reader holds come to. Where the picks are bad, nothing is
/// read of the reader.
pub fn read_script<A: Allocator + Copy, J: Job<A>, R: Read>(
    alloc: A,
    job: &J,
    reader: &mut Watched<R>,
) -> Result<Reading<J::Outcome, A>, J::Fault>
    ensures { ReadsScript (J.view job.now) (J.takes job.now) R.remaining reader.old reader.new result }
{
    match job.picks(alloc) {
        Ok(picks) => read_with(alloc, job, picks, reader),
        Err(PicksFault::OutOfMemory) => Err(job.fault_of(RunFault::OutOfMemory)),
        Err(PicksFault::BadPicks) => refuse(alloc, job, b"", Refusal::BadPicks),
    }
}

/// The outcome and the output, before any of it is written.
fn prepare<A: Allocator + Copy, J: DirectJob<A>, R: Read>(
    alloc: A,
    job: &J,
    reader: &mut Watched<R>,
) -> Result<(J::Outcome, Vec<u8, A>), J::Fault>
    ensures { Prepares (J.view job.now) R.remaining reader.old reader.new result }
{
    match read_script(alloc, job, reader) {
        Ok(Reading::Accepted { picks, program }) => job.answer(alloc, &picks, &program),
        Ok(Reading::Refused { outcome, text }) => Ok((outcome, text)),
        Err(fault) => Err(fault),
    }
}

/// Does a job with the script that the reader holds, and writes its output, or what it writes for the refusal. The
/// output is built whole before its first byte is written, and nothing is tried again; of the reader at most
/// 1,048,577 bytes are read, and none where the job is refused for its picks. A read that fails is `Read`; a
/// write that fails or takes no byte, or a failed flush, is `Write` with the number of bytes that were taken.
pub fn transact<A: Allocator + Copy, J: DirectJob<A>, R: Read, W: Write>(
    alloc: A,
    job: &J,
    reader: &mut Watched<R>,
    writer: &mut Watched<W>,
) -> Result<J::Outcome, J::Fault>
    ensures { Meets (J.view job.now) R.remaining reader.old reader.new W.contents writer.old writer.new result }
{
    let (outcome, output) = prepare(alloc, job, reader)?;
    match write_output(writer, &output) {
        Ok(()) => Ok(outcome),
        Err(fault) => Err(job.fault_of(fault)),
    }
}
