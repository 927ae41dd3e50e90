// What a command says beside its output.
ghost use Rattle.std.specs.Prelude.{Some};
ghost use Rattle.def_notice.specs.NoticeTexts.{input_text_name, moves_text, node_command_text, notice_text};
ghost use Rattle.def_notice.specs.NoticeTexts.{known_sessions_text, messages_text};
ghost use Rattle.tn_notice.specs.NoticeViews.{command_seen_of, input_text_seen, known_names, notice_seen};

use crate::difference::OutputDifference;
use crate::fault::CommandFault;
use crate::test_text::{TestText, TestTextFault};
use std::fmt;
use std::fmt::{Display, Formatter, Write};

/// Which command shows where a running node differs.
#[derive(Clone, Copy)]
pub enum NodeCommand {
    /// `explain --node`, by the same picks.
    SamePicks,
    /// By the picks of the journal.
    Journal,
}

impl Display for NodeCommand {
    ghost output = { λ c. Some (node_command_text (command_seen_of c)) };

    fn fmt<W: Write>(&self, f: &mut Formatter<W>) -> fmt::Result {
        match self {
            NodeCommand::SamePicks => f.write_str("explain --node"),
            NodeCommand::Journal => f.write_str("explain --node, by the picks of the journal,"),
        }
    }
}

/// A text that may be read from standard input, of which only one can.
#[derive(Clone, Copy, Debug, PartialEq, Eq)]
pub enum InputText {
    Script,
    Picks,
    Moves,
    /// The output that is expected.
    Output,
    /// The listing of a session that is expected.
    Listing,
}

impl Display for InputText {
    ghost output = { λ text. Some (input_text_name (input_text_seen text)) };

    fn fmt<W: Write>(&self, f: &mut Formatter<W>) -> fmt::Result {
        match self {
            InputText::Script => f.write_str("script"),
            InputText::Picks => f.write_str("picks"),
            InputText::Moves => f.write_str("moves"),
            InputText::Output => f.write_str("expected output"),
            InputText::Listing => f.write_str("expected listing"),
        }
    }
}

/// Which sessions a script creates, where that is known.
#[derive(Clone, Copy)]
struct SessionsText<'a> {
    names: Option<&'a str>,
}

impl Display for SessionsText<'_> {
    ghost output = { λ s. Some (known_sessions_text (known_names s)) };

    fn fmt<W: Write>(&self, f: &mut Formatter<W>) -> fmt::Result {
        match self.names {
            None => Ok(()),
            Some(names) => {
                if names.is_empty() {
                    f.write_str(": it creates none")
                } else {
                    write!(f, ": it creates {names}")
                }
            }
        }
    }
}

/// How many moves a run has, where that is known.
#[derive(Clone, Copy)]
struct MovesText {
    count: Option<u64>,
}

impl Display for MovesText {
    ghost output = { λ m. Some (moves_text m.count) };

    fn fmt<W: Write>(&self, f: &mut Formatter<W>) -> fmt::Result {
        match self.count {
            None => Ok(()),
            Some(0) => f.write_str(": it has none"),
            Some(count) => write!(f, ": its moves are 1 to {count}"),
        }
    }
}

/// How many messages a session sends, where that is known.
#[derive(Clone, Copy)]
struct MessagesText {
    count: Option<u64>,
}

impl Display for MessagesText {
    ghost output = { λ m. Some (messages_text m.count) };

    fn fmt<W: Write>(&self, f: &mut Formatter<W>) -> fmt::Result {
        match self.count {
            None => Ok(()),
            Some(0) => f.write_str(": it sends none"),
            Some(count) => write!(f, ": its messages are 1 to {count}"),
        }
    }
}

/// What a command says beside its output.
#[derive(Clone, Copy)]
pub enum Notice<'a> {
    /// A line that is there already: of a refusal, of the remarks on a run, or of the notes on a test.
    Line(&'a str),
    /// A fault.
    Fault(CommandFault),
    /// A fault, with the system's reason.
    FaultBecause {
        fault: CommandFault,
        reason: &'a str,
    },
    /// A file that can't be opened.
    NoFile {
        path: &'a str,
        reason: &'a str,
    },
    /// Both are to be read from standard input.
    BothFromInput {
        one: InputText,
        other: InputText,
    },
    /// A value of an option is none.
    NoValue {
        text: &'a str,
        option: &'a str,
        reason: &'a str,
    },
    /// A text of the test of a match specification isn't what it should be.
    TestText {
        text: TestText,
        fault: TestTextFault<'a>,
    },
    /// The script creates no session of this name; where it is known, it creates these.
    NoSession {
        name: &'a str,
        sessions: Option<&'a str>,
    },
    /// The run has no move with this number; where it is known, it has so many.
    NoMove {
        number: u64,
        moves: Option<u64>,
    },
    /// The session sends no message with this number; where it is known, it sends so many.
    NoMessage {
        session: &'a str,
        number: u64,
        messages: Option<u64>,
    },
    /// A running node is known to do nothing otherwise.
    NoNodeMove,
    /// No move of the run is chosen by the message that is asked for.
    NoChosenMove,
    /// The script has no forms.
    NoForms,
    /// The pick with this number, from 1, is neither 0 nor a pid that a process may have.
    PickOfNobody {
        number: usize,
        pick: u32,
    },
    /// A running node differs at so many of so many moves.
    NodeMoves {
        differing: usize,
        moves: usize,
        command: NodeCommand,
    },
    /// Where the output isn't the one that is expected.
    Difference(OutputDifference<'a>),
    /// The output doesn't have the line that it must have.
    LacksLine {
        line: &'a str,
    },
    /// The output has the line that it must not have.
    HasLine {
        line: &'a str,
    },
    /// The output has no listing of a session of this name.
    LacksListing {
        name: &'a str,
    },
}

impl Display for Notice<'_> {
    ghost output = { λ n. Some (notice_text (notice_seen n)) };

    fn fmt<W: Write>(&self, f: &mut Formatter<W>) -> fmt::Result {
        match self {
            Notice::Line(line) => f.write_str(line),
            Notice::Fault(fault) => Display::fmt(fault, f),
            Notice::FaultBecause { fault, reason } => write!(f, "{fault}: {reason}"),
            Notice::NoFile { path, reason } => {
                if path.is_empty() {
                    f.write_str("error: the name of a file is empty")
                } else {
                    write!(f, "error: {path}: {reason}")
                }
            }
            Notice::BothFromInput { one, other } => write!(
                f,
                "error: the {one} and the {other} can't both be standard input"
            ),
            Notice::NoValue {
                text,
                option,
                reason,
            } => write!(
                f,
                "error: invalid value '{text}' for '{option}': {reason}\n\nFor more information, try '--help'."
            ),
            Notice::TestText { text, fault } => write!(f, "{text}: {fault}"),
            Notice::NoSession { name, sessions } => write!(
                f,
                "error: the script creates no session {name}{}",
                SessionsText { names: *sessions }
            ),
            Notice::NoMove { number, moves } => write!(
                f,
                "error: the run has no move {number}{}",
                MovesText { count: *moves }
            ),
            Notice::NoMessage {
                session,
                number,
                messages,
            } => write!(
                f,
                "error: the session {session} sends no message {number}{}",
                MessagesText { count: *messages }
            ),
            Notice::NoNodeMove => {
                f.write_str("note: a running node is known to do nothing otherwise there")
            }
            Notice::NoChosenMove => f.write_str("error: the pattern selects no move of the run"),
            Notice::NoForms => f.write_str("note: the script has no forms"),
            Notice::PickOfNobody { number, pick } => write!(
                f,
                "note: pick {number} is {pick}, and no process has that pid: pids are 100 to 163, and 0 takes the next command"
            ),
            Notice::NodeMoves {
                differing,
                moves,
                command,
            } => write!(
                f,
                "note: a running node differs at {differing} of {moves} moves; {command} shows where"
            ),
            Notice::Difference(difference) => Display::fmt(difference, f),
            Notice::LacksLine { line } => write!(f, "error: the output has no line {line}"),
            Notice::HasLine { line } => write!(f, "error: the output has the line {line}"),
            Notice::LacksListing { name } => {
                write!(f, "error: the output has no listing of a session {name}")
            }
        }
    }
}

/// Prints a notice and a line feed on standard error. Nothing else of the program prints there, but `clap`, which reads
/// the command line. Where that fails, nothing is said.
pub fn print_notice<R: Eprint>(rt: &R, notice: Notice<'_>) {
    let _ = rt.eprintln(notice);
}
