// The command `serve`: requests from standard input, an answer a line.
ghost use Rattle.std.specs.Process.{exit_status};
ghost use Rattle.tn_command.specs.Explorations.{IsExplorationStatus};

use crate::do_words;
use std::alloc::{AllocError, Global};
use std::io;
use std::io::{BufRead, BufReader, Error, Write};
use std::process::ExitCode;
use std::rt::Files;
use std::sync::Wait;
use std::thread::Threads;
use tn_command::{FAULT, LastError, report, run_fault};
use tn_notice::{CommandFault, print_fault};
use tn_run::{RunFault, write_output};
use tn_serve::{
    Line, RequestFault, ServeRequest, ServeRuntime, next_line, read_request, serve_answer,
    serve_error, status_number,
};
use tn_text::Watched;

/// The words of a command line, the program's own name first.
fn with_program(alloc: Global, words: Vec<String>) -> Result<Vec<String>, AllocError> {
    let mut words = words;
    words.insert(0, String::from_str(alloc, "tracenode")?)?;
    Ok(words)
}

/// The answer to a request: the status, the output and the errors of its command line.
fn answer<R: Files + AllocGlobal + Threads + Wait + Sync>(
    rt: &R,
    request: ServeRequest,
) -> Result<Vec<u8>, RequestFault> {
    let ServeRequest { command, input } = request;
    let words = with_program(rt.alloc(), command)?;
    let runtime = ServeRuntime::with_input(rt, input.as_bytes());
    let status = do_words(&runtime, rt, &words);
    let Some((output, errors)) = runtime.into_texts() else {
        return Err(RequestFault::Memory);
    };
    let line = serve_answer(rt.alloc(), status_number(status), &output, &errors)?;
    Ok(line)
}

/// The answer to a line, or why it has an error in place of one.
fn answer_to<R: Files + AllocGlobal + Threads + Wait + Sync>(
    rt: &R,
    line: Line,
) -> Result<Vec<u8>, RequestFault> {
    match line {
        Line::NoMemory => Err(RequestFault::Memory),
        Line::Bytes(bytes) => answer(rt, read_request(rt.alloc(), &bytes)?),
    }
}

/// Writes the answer to a line, and says how many bytes it has.
fn put_answer<R: Files + AllocGlobal + Threads + Wait + Sync, W: Write>(
    rt: &R,
    line: Line,
    writer: &mut Watched<W>,
) -> Result<usize, RunFault> {
    match answer_to(rt, line) {
        Ok(text) => {
            write_output(writer, &text)?;
            Ok(text.len())
        }
        Err(fault) => {
            let text = serve_error(fault);
            write_output(writer, text)?;
            Ok(text.len())
        }
    }
}

/// What a fault is where standard output had taken so many bytes before.
fn fault_after(fault: RunFault, before: usize) -> CommandFault {
    match run_fault(fault) {
        CommandFault::Write { written } => CommandFault::Write {
            written: written.saturating_add(before),
        },
        other => other,
    }
}

/// Answers each line of a reader with a line, until the reader ends. An error is the reader's; a fault is the writer's.
fn put_answers<R: Files + AllocGlobal + Threads + Wait + Sync, B: BufRead, W: Write>(
    rt: &R,
    reader: &mut B,
    writer: &mut Watched<W>,
) -> Result<Option<CommandFault>, Error> {
    let mut written = 0usize;
    for _ in 0..u64::MAX {
        let Some(line) = next_line(rt.alloc(), &mut *reader)? else {
            break;
        };
        match put_answer(rt, line, &mut *writer) {
            Ok(bytes) => written = written.saturating_add(bytes),
            Err(fault) => return Ok(Some(fault_after(fault, written))),
        }
    }
    Ok(None)
}

/// Answers the requests of standard input on standard output, a line each, until standard input ends.
pub fn serve<R: Input + Files + Print + Eprint + AllocGlobal + Threads + Wait + Sync>(
    rt: &R,
) -> ExitCode
    ensures { IsExplorationStatus (exit_status result) }
{
    let Ok(mut reader) = BufReader::new(rt.alloc(), rt.reader()) else {
        return report(rt, CommandFault::Memory);
    };
    let mut writer = Watched::of(LastError::of(io::writer(rt)));
    match put_answers(rt, &mut reader, &mut writer) {
        Ok(None) => ExitCode::SUCCESS,
        Ok(Some(fault)) => {
            let (_, reason) = writer.into_inner().into_parts();
            print_fault(rt, fault, reason);
            ExitCode::from(FAULT)
        }
        Err(error) => {
            print_fault(rt, CommandFault::Read, Some(error));
            ExitCode::from(FAULT)
        }
    }
}
