// What is said of errors of the system, and of lines that are there already.
ghost use Rattle.std.specs.Prelude.{◌≡◌};
ghost use Rattle.std.specs.IoError.{error_kind};
ghost use Rattle.tn_notice.specs.FaultViews.{reason_of_kind, system_reason_seen};

use crate::fault::{CommandFault, SystemReason, notice_of_fault};
use crate::notice::{Notice, print_notice};
use std::fmt::InlineText;
use std::io::{Error, ErrorKind};

/// The words of an error of the system: at most 256 bytes, and a number after them.
type SystemWords = InlineText<320>;

/// Why a call of the system failed, with the words of its error.
fn reason_of(error: Error, words: &str) -> SystemReason<'_>
    ensures { system_reason_seen result ≡ reason_of_kind (error_kind error) words.now }
{
    match error.kind() {
        ErrorKind::BrokenPipe => SystemReason::BrokenPipe,
        ErrorKind::OutOfMemory => SystemReason::NoMemory,
        _ => SystemReason::Words(words),
    }
}

/// Prints which fault it was because of an error of the system.
fn print_system_fault<R: Eprint>(rt: &R, fault: CommandFault, error: Error) {
    let words = SystemWords::of(error);
    if let Some(notice) = notice_of_fault(fault, Some(reason_of(error, words.as_str()))) {
        print_notice(rt, notice);
    }
}

/// Prints which fault it was, and the system's reason where there is one. A reader that was refused memory is
/// a lack of memory, as that of the run itself is. Of a closed pipe nothing is said, since whoever read it is gone.
pub fn print_fault<R: Eprint>(rt: &R, fault: CommandFault, error: Option<Error>) {
    match error {
        None => print_notice(rt, Notice::Fault(fault)),
        Some(error) => print_system_fault(rt, fault, error),
    }
}

/// Prints that the file of this name can't be opened, and why.
pub fn print_no_file<R: Eprint>(rt: &R, path: &str, error: Error) {
    let words = SystemWords::of(error);
    let reason = words.as_str();
    print_notice(rt, Notice::NoFile { path, reason });
}

/// Prints a line that was made, where it is text.
pub fn print_line<R: Eprint>(rt: &R, line: &[u8]) {
    if let Ok(line) = str::from_utf8(line) {
        print_notice(rt, Notice::Line(line));
    }
}
