// The command `fun`.
ghost use Rattle.std.specs.Prelude.{◌≡◌};
ghost use Rattle.std.specs.Process.{exit_status};
ghost use Rattle.tn_spec.specs.Views.{dialect_of};
ghost use Rattle.tn_command.specs.Status.{IsStatus};
ghost use Rattle.tn_fun_command.specs.Ends.{AnswersFun, status_of_refusal};

use crate::notes::tell_notes_of;
use crate::notice::put_notice;
use std::alloc::{Allocator, Global};
use std::io;
use std::io::Write;
use std::process::ExitCode;
use tn_command::{FAULT, JobEnd, LastError, REFUSED, run_fault};
use tn_notice::{Notice, print_fault, print_notice};
use tn_run::{RunFault, write_output};
use tn_spec::Dialect;
use tn_text::Watched;
use tn_translation::{FunFault, fun_answer};

/// The status of an answer.
fn status_of(refusal: &Option<FunFault>) -> ExitCode
    ensures { exit_status result ≡ status_of_refusal refusal.now }
{
    match refusal {
        None => ExitCode::SUCCESS,
        Some(_) => ExitCode::from(REFUSED),
    }
}

/// Writes the answer of a fun's text and a line feed: the specification, or the line of the refusal.
pub fn answer_fun_over<A: Allocator + Copy, W: Write>(
    alloc: A,
    writer: &mut Watched<W>,
    text: &[u8],
    dialect: Dialect,
) -> JobEnd<Option<FunFault>, RunFault>
    ensures answered { AnswersFun (dialect_of dialect) text.now W.contents writer.old writer.new
        (exit_status result.status) result.answer }
    ensures status { IsStatus (exit_status result.status) }
{
    let Ok(answer) = fun_answer(alloc, text, dialect) else {
        return JobEnd {
            status: ExitCode::from(FAULT),
            answer: Err(RunFault::OutOfMemory),
        };
    };
    match write_output(writer, &answer.text) {
        Ok(()) => JobEnd {
            status: status_of(&answer.refusal),
            answer: Ok(answer.refusal),
        },
        Err(fault) => JobEnd {
            status: ExitCode::from(FAULT),
            answer: Err(fault),
        },
    }
}

/// Says on standard error why the fun is refused, in one line.
fn tell_refusal<R: Eprint + AllocGlobal>(rt: &R, text: &[u8], fault: FunFault) {
    let mut line: Vec<u8, Global> = Vec::new(rt.alloc());
    let words = match put_notice(text, fault, &mut line) {
        Ok(()) => str::from_utf8(&line).unwrap_or("fun"),
        Err(_) => "fun",
    };
    print_notice(rt, Notice::Line(words));
}

/// Writes the answer of a fun's text to standard output, and the notes on it or why it is refused to standard error.
pub fn print_fun<R: Print + Eprint + AllocGlobal>(rt: &R, text: &[u8], dialect: Dialect) -> ExitCode
    ensures { IsStatus (exit_status result) }
{
    let mut writer = Watched::of(LastError::of(io::writer(rt)));
    let JobEnd { status, answer } = answer_fun_over(rt.alloc(), &mut writer, text, dialect);
    let (_, reason) = writer.into_inner().into_parts();
    match answer {
        Ok(None) => tell_notes_of(rt, text),
        Ok(Some(fault)) => tell_refusal(rt, text, fault),
        Err(fault) => print_fault(rt, run_fault(fault), reason),
    }
    status
}
