// Why a text of trace messages is refused.
ghost use Rattle.std.specs.Prelude.{◌≡◌};
ghost use Rattle.tn_trace_text.specs.Faults.{term_fault_words, trace_fault_words};

use tn_text::TextFault;

/// Why a text isn't one of trace messages (own). A line is given by its number, from 1.
#[derive(Clone, Copy, Debug, PartialEq, Eq)]
pub enum TraceFault {
    /// The text of this line's message spells no term. The offset of the fault is one in that text, in bytes, from 0.
    /// It is the line itself but where `dbg` printed it.
    NoTerm { line: usize, fault: TextFault },
    /// That text spells a term that is no trace message.
    NoMessage { line: usize },
    /// The allocator refused memory. It says nothing of the text.
    OutOfMemory,
}

/// Why a line spells no term.
fn term_fault_words(fault: TextFault) -> &'static str
    ensures { result.now ≡ term_fault_words fault }
{
    match fault {
        TextFault::TooLong => "it has more than 1048576 bytes",
        TextFault::Token { .. } => "it spells no term",
        TextFault::TooDeep { .. } => "it nests too deep",
        TextFault::TooLarge { .. } => "a part of it is past a limit",
        TextFault::OutOfMemory => "out of memory",
    }
}

impl TraceFault {
    /// Why the text is refused, in words that go on from its line.
    pub fn words(self) -> &'static str
        ensures { result.now ≡ trace_fault_words self }
    {
        match self {
            TraceFault::NoTerm { fault, .. } => term_fault_words(fault),
            TraceFault::NoMessage { .. } => "it is no trace message",
            TraceFault::OutOfMemory => "out of memory",
        }
    }
}
