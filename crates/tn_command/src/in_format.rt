// A job whose output is written in a format.
ghost use Rattle.std.specs.Prelude.{◌≡◌, IfOk, Some};
ghost use Rattle.def_formats.specs.MovedRows.{IsMovedJson, IsSpelledOrNone};
ghost use Rattle.tn_program.specs.Views.{program_of};
ghost use Rattle.tn_command.specs.JobForms.{IsTextInFormat, refusals_in_format, text_in_format};

use crate::command::Command;
use crate::stderr::NamedText;
use std::alloc::{AllocError, Allocator, Global};
use tn_formats::{Format, in_format, journal_text, moved_json};
use tn_listing::{PicksFault, read_picks};
use tn_message_moves::message_moves;
use tn_notice::CommandFault;
use tn_program::Program;
use tn_run::{Denial, DirectJob, Job, Refusal, RefusalForm, RunFault};

/// A job whose output is written in a format, where one is given. A refusal is an object where the output is JSON.
#[derive(Clone, Copy)]
pub struct InFormat<'a, J> {
    pub job: &'a J,
    pub format: Option<Format>,
}

/// The text in a format, or as it is where none is given.
pub(crate) fn text_in_format<A: Allocator + Copy>(
    alloc: A,
    format: Option<Format>,
    text: Vec<u8, A>,
) -> Result<Vec<u8, A>, AllocError>
    ensures { IfOk result (λ v. v.items ≡ text_in_format format text.items) }
{
    match format {
        Some(format) => in_format(alloc, format, &text),
        None => Ok(text),
    }
}

/// The picks that a text spells; none where it spells none.
fn spelled_picks<A: Allocator + Copy>(alloc: A, text: &[u8]) -> Result<Vec<u32, A>, AllocError>
    ensures { IfOk result (λ v. IsSpelledOrNone text.now v.items) }
{
    match read_picks(alloc, text) {
        Ok(picks) => Ok(picks),
        Err(PicksFault::BadPicks) => Ok(Vec::new(alloc)),
        Err(PicksFault::OutOfMemory) => Err(AllocError),
    }
}

/// The JSON of an output of a program, with the moves of its messages.
fn moved_text<A: Allocator + Copy>(
    alloc: A,
    program: &Program<A>,
    output: &[u8],
) -> Result<Vec<u8, A>, AllocError>
    ensures { IfOk result (λ v. IsMovedJson (program_of program.now) output.now v.items) }
{
    let journal = journal_text(alloc, output)?;
    let picks = spelled_picks(alloc, &journal)?;
    let moves = message_moves(alloc, program, &picks)?;
    moved_json(alloc, &moves, output)
}

/// What is written of a program in a format: the JSON of an output has the moves of its messages.
fn formatted_text<A: Allocator + Copy>(
    alloc: A,
    format: Format,
    program: &Program<A>,
    text: &[u8],
) -> Result<Vec<u8, A>, AllocError>
    ensures { IfOk result (λ v. IsTextInFormat (Some format) (program_of program.now) text.now v.items) }
{
    match format {
        Format::OutputJson => moved_text(alloc, program, text),
        Format::Summary => in_format(alloc, Format::Summary, text),
        Format::SummaryJson => in_format(alloc, Format::SummaryJson, text),
        Format::AccountJson => in_format(alloc, Format::AccountJson, text),
        Format::TextJson => in_format(alloc, Format::TextJson, text),
        Format::Coloured => in_format(alloc, Format::Coloured, text),
    }
}

/// The same, or the text as it is where no format is given.
fn program_text<A: Allocator + Copy>(
    alloc: A,
    format: Option<Format>,
    program: &Program<A>,
    text: Vec<u8, A>,
) -> Result<Vec<u8, A>, AllocError>
    ensures { IfOk result (λ v. IsTextInFormat format (program_of program.now) text.items v.items) }
{
    match format {
        Some(format) => formatted_text(alloc, format, program, &text),
        None => Ok(text),
    }
}

/// What is written in a format for a refusal, for which this is written in none.
fn refusal_form_in(format: Option<Format>, form: RefusalForm) -> RefusalForm
    ensures { result ≡ refusals_in_format format form }
{
    match format {
        None => form,
        Some(Format::Summary | Format::Coloured) => form,
        Some(Format::OutputJson | Format::SummaryJson) => RefusalForm::Json,
        Some(Format::AccountJson | Format::TextJson) => RefusalForm::Json,
    }
}

impl<A: Allocator + Copy, J: Job<A>> Job<A> for InFormat<'_, J> {
    ghost use Rattle.tn_command.specs.JobForms.{job_in};

    type Outcome = J::Outcome;

    type Fault = J::Fault;

    ghost view = { λ f. job_in f.format (J.view f.job.now) };

    ghost takes = { λ f picks. J.takes f.job.now picks };

    fn picks(&self, alloc: A) -> Result<Vec<u32, A>, PicksFault> {
        self.job.picks(alloc)
    }

    fn refusal_outcome(&self, alloc: A, refusal: Refusal) -> (J::Outcome, RefusalForm) {
        let (outcome, form) = self.job.refusal_outcome(alloc, refusal);
        (outcome, refusal_form_in(self.format, form))
    }

    fn succeeds(&self, outcome: &J::Outcome) -> bool {
        self.job.succeeds(outcome)
    }

    fn fault_of(&self, fault: RunFault) -> J::Fault {
        self.job.fault_of(fault)
    }
}

impl<A: Allocator + Copy, J: DirectJob<A>> DirectJob<A> for InFormat<'_, J> {
    fn answer(
        &self,
        alloc: A,
        picks: &[u32],
        program: &Program<A>,
    ) -> Result<(J::Outcome, Vec<u8, A>), J::Fault> {
        let (outcome, plain) = self.job.answer(alloc, picks, program)?;
        match program_text(alloc, self.format, program, plain) {
            Ok(output) => Ok((outcome, output)),
            Err(_) => Err(self.job.fault_of(RunFault::OutOfMemory)),
        }
    }

    fn answer_within(
        &self,
        alloc: A,
        picks: &[u32],
        program: &Program<A>,
        most: usize,
    ) -> Result<Option<(J::Outcome, Vec<u8, A>)>, J::Fault> {
        match self.format {
            None => self.job.answer_within(alloc, picks, program, most),
            Some(_) => Ok(Some(self.answer(alloc, picks, program)?)),
        }
    }
}

impl<A: Allocator + Copy, J: Command<A>> Command<A> for InFormat<'_, J> {
    ghost flaw = { λ f outcome bytes flawed. J.flaw f.job.now outcome bytes flawed };

    ghost said = { J.said };

    fn command_fault(&self, fault: &J::Fault) -> CommandFault {
        self.job.command_fault(fault)
    }

    fn tell_outcome<R: Eprint + AllocGlobal>(
        &self,
        rt: &R,
        outcome: J::Outcome,
        script: NamedText<'_>,
    ) {
        self.job.tell_outcome(rt, outcome, script)
    }

    fn is_flawed(
        &self,
        alloc: A,
        outcome: &J::Outcome,
        script: NamedText<'_>,
    ) -> Result<bool, Denial> {
        self.job.is_flawed(alloc, outcome, script)
    }
}
