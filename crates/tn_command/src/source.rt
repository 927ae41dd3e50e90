// Where a script or a text of picks is read from.
ghost use Rattle.std.specs.Prelude.{IfErr};
ghost use Rattle.std.specs.Process.{exit_status};
ghost use Rattle.tn_command.specs.Sources.{IsSourceOf};
ghost use Rattle.tn_command.specs.Status.{IsFailure};

use crate::status::{FAULT, REFUSED};
use std::fs::OpenFile;
use std::io::ErrorKind;
use std::process::ExitCode;
use std::rt::Files;
use std::{fs, io};
use tn_notice::{escape_controls, plain_name, print_no_file};

/// Where a text is read from.
#[derive(Clone, Copy)]
pub enum Source<'a> {
    /// Standard input.
    Input,
    /// The file with this path.
    File(&'a str),
}

/// What a word of the command line names: standard input where it is `-` or absent, else a file.
pub fn source_of<'a>(word: Option<&'a str>) -> Source<'a>
    ensures { IsSourceOf word.entry result }
{
    match word {
        None | Some("-") => Source::Input,
        Some(path) => Source::File(path),
    }
}

/// The file with this path, which is no folder.
fn open_file<R: Files>(rt: &R, path: &str) -> io::Result<R::File> {
    let file = fs::open(rt, path)?;
    if file.metadata()?.is_dir() {
        return Err(io::Error::from(ErrorKind::IsADirectory));
    }
    Ok(file)
}

/// Whether a path that can't be opened so is a mistake of whoever gave it, and no failure of the system.
fn is_mistaken(kind: ErrorKind) -> bool {
    matches!(
        kind,
        ErrorKind::NotFound
            | ErrorKind::PermissionDenied
            | ErrorKind::IsADirectory
            | ErrorKind::NotADirectory
            | ErrorKind::InvalidInput
    )
}

/// Opens a file to be read.
///
/// # Errors
///
/// The status, after a line on standard error: that of a refusal where the path names no file that may be
/// read, that of a fault where the system failed.
pub fn open<R: Files + Eprint + AllocGlobal>(rt: &R, path: &str) -> Result<R::File, ExitCode>
    ensures { IfErr result (λ status. IsFailure (exit_status status)) }
{
    match open_file(rt, path) {
        Ok(file) => Ok(file),
        Err(error) => {
            let plain = escape_controls(rt.alloc(), path);
            print_no_file(rt, plain_name(&plain, "the file"), error);
            let status = if is_mistaken(error.kind()) {
                REFUSED
            } else {
                FAULT
            };
            Err(ExitCode::from(status))
        }
    }
}
