// Faults, and what is said of them.
ghost use Rattle.std.specs.Prelude.{◌≡◌, Some};
ghost use Rattle.def_notice.specs.FaultTexts.{fault_text};
ghost use Rattle.def_notice.specs.NoticeTexts.{notice_of_fault};
ghost use Rattle.tn_notice.specs.FaultViews.{command_fault_seen, system_reasons_seen};
ghost use Rattle.tn_notice.specs.NoticeViews.{notices_seen};

use crate::notice::Notice;
use std::fmt;
use std::fmt::{Display, Formatter, Write};

/// Why a command has no output, or not all of it: the exit status is 3.
#[derive(Clone, Copy)]
pub enum CommandFault {
    /// 18: the script, the picks or the file of the output that is expected can't be read.
    Read,
    /// 19: standard output took so many bytes, and no more.
    Write { written: usize },
    /// The system refused memory.
    Memory,
    /// It refused memory while workers ran the node.
    Workers,
    /// The output has so many bytes, and may have so many.
    Bytes { bytes: usize, most: usize },
    /// The listings alone have more bytes than the output may have.
    Listings { most: usize },
    /// The file of the output that is expected has more bytes than an output may have.
    Expectation { most: usize },
}

impl Display for CommandFault {
    ghost output = { λ f. Some (fault_text (command_fault_seen f)) };

    fn fmt<W: Write>(&self, f: &mut Formatter<W>) -> fmt::Result {
        match self {
            CommandFault::Read => f.write_str("fault 18 read"),
            CommandFault::Write { written } => write!(f, "fault 19 write after {written} bytes"),
            CommandFault::Memory => f.write_str("fault memory"),
            CommandFault::Workers => f.write_str("fault workers"),
            CommandFault::Bytes { bytes, most } => write!(
                f,
                "fault output: the output has {bytes} bytes, and --max-output is {most}"
            ),
            CommandFault::Listings { most } => write!(
                f,
                "fault output: the output has more than {most} bytes, and --max-output is {most}"
            ),
            CommandFault::Expectation { most } => write!(
                f,
                "fault expect: the file has more than {most} bytes, and --max-output is {most}"
            ),
        }
    }
}

/// Why a read or a write failed.
#[derive(Clone, Copy)]
pub enum SystemReason<'a> {
    /// Whoever read the output is gone.
    BrokenPipe,
    /// The system refused memory.
    NoMemory,
    /// Any other, in the system's words.
    Words(&'a str),
}

/// What is said of a fault, where the system gives this reason: nothing where whoever read the output is gone.
pub fn notice_of_fault(fault: CommandFault, reason: Option<SystemReason<'_>>) -> Option<Notice<'_>>
    ensures { notices_seen result ≡ notice_of_fault (command_fault_seen fault) (system_reasons_seen reason.entry) }
{
    match reason {
        None => Some(Notice::Fault(fault)),
        Some(SystemReason::BrokenPipe) => None,
        Some(SystemReason::NoMemory) => Some(Notice::Fault(CommandFault::Memory)),
        Some(SystemReason::Words(reason)) => Some(Notice::FaultBecause { fault, reason }),
    }
}
