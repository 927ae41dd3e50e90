// The file that an output goes to.
ghost use Rattle.std.specs.Prelude.{IfErr};
ghost use Rattle.std.specs.Process.{exit_status};
ghost use Rattle.tn_command.specs.Explorations.{IsExplorationStatus};

use crate::run_command;
use clap::ArgMatches;
use std::process::ExitCode;
use std::rt::Files;
use std::sync::Wait;
use std::thread::Threads;
use std::{fs, io};
use tn_command::{FAULT, LastError, REFUSED, report, run_fault};
use tn_notice::{CommandFault, escape_controls, plain_name, print_fault, print_no_file};
use tn_run::write_output;
use tn_serve::OutputRuntime;
use tn_text::Watched;

/// Whether something is there that is no regular file, as a device or a symbolic link.
fn is_special<R: Files>(rt: &R, path: &str) -> bool {
    match fs::symlink_metadata(rt, path) {
        Ok(metadata) => !metadata.is_file(),
        Err(_) => false,
    }
}

/// Writes a text beside the file at a path, which it then takes the place of.
fn replace_file<R: Files>(rt: &R, path: &str, part: &str, text: &[u8]) -> io::Result<()> {
    fs::write(rt, part, text)?;
    fs::rename(rt, part, path)
}

/// Writes a text to the file at a path, whole or not at all. What is there stays where it can't be written. What is no
/// regular file isn't replaced, but written to.
fn write_file<R: Files + AllocGlobal>(rt: &R, path: &str, text: &[u8]) -> io::Result<()> {
    if is_special(rt, path) {
        return fs::write(rt, path, text);
    }
    let part = format!(in rt.alloc(); "{path}.part")?;
    let done = replace_file(rt, path, part.as_str(), text);
    if done.is_err() {
        let _ = fs::remove_file(rt, part.as_str());
    }
    done
}

/// Writes what a command that was refused or ended by a fault wrote to standard output.
///
/// # Errors
///
/// The status of a fault, after a line on standard error.
fn put_refusal<R: Print + Eprint + AllocGlobal>(rt: &R, text: &[u8]) -> Result<(), ExitCode>
    ensures { IfErr result (λ s. IsExplorationStatus (exit_status s)) }
{
    let mut writer = Watched::of(LastError::of(io::writer(rt)));
    match write_output(&mut writer, text) {
        Ok(()) => Ok(()),
        Err(fault) => {
            let (_, reason) = writer.into_inner().into_parts();
            print_fault(rt, run_fault(fault), reason);
            Err(ExitCode::from(FAULT))
        }
    }
}

/// Does what was read of the words, whose output goes to the file at this path. Where it is refused or ends by a fault,
/// the file stays as it was, and what it has to say is on standard output.
pub(crate) fn run_into_file<
    R: Input + Files + Print + Eprint + AllocGlobal,
    T: Threads + Wait + Sync,
>(rt: &R, threads: &T, matches: &ArgMatches<'_>, path: &str) -> ExitCode
    ensures { IsExplorationStatus (exit_status result) }
{
    let runtime = OutputRuntime::of_host(rt);
    let status = run_command(&runtime, threads, matches, false);
    let Some(text) = runtime.into_output() else {
        return report(rt, CommandFault::Memory);
    };
    if status == ExitCode::from(REFUSED) || status == ExitCode::from(FAULT) {
        return match put_refusal(rt, &text) {
            Ok(()) => status,
            Err(fault) => fault,
        };
    }
    match write_file(rt, path, &text) {
        Ok(()) => status,
        Err(error) => {
            let plain = escape_controls(rt.alloc(), path);
            print_no_file(rt, plain_name(&plain, "the file"), error);
            ExitCode::from(FAULT)
        }
    }
}
