// Why a line has an error in place of an answer.
ghost use Rattle.std.specs.Prelude.{◌≡◌};
ghost use Rattle.def_serve.specs.Answers.{serve_error};
ghost use Rattle.tn_serve.specs.Views.{request_fault_seen};

use std::alloc::AllocError;

/// Why a line has an error in place of an answer.
#[derive(Clone, Copy, Debug, PartialEq, Eq)]
pub enum RequestFault {
    /// It has more than `MAX_LINE` bytes.
    LongLine,
    /// It is no JSON.
    NoJson,
    /// It is JSON, but no object.
    NoObject,
    /// A member is neither `command` nor `input`.
    OtherMember,
    /// One of these comes twice.
    RepeatedMember,
    /// `command` is missing, or no array of strings.
    NoCommand,
    /// `input` is no string.
    NoInput,
    /// It asks for `serve` itself.
    NestedServe,
    /// The system refused memory for it, or for its answer.
    Memory,
}

impl From<AllocError> for RequestFault {
    ghost use Rattle.std.specs.Prelude.{◌≡◌};
    ghost use Rattle.tn_serve.specs.declared.fault.RequestFault.TheVariants.{Memory};

    ghost from_gives = { λ _ e. e ≡ Memory };

    fn from(_refused: AllocError) -> RequestFault {
        RequestFault::Memory
    }
}

/// The line that says so, with its line feed. It takes no memory.
#[tactic(auto, unfolding(json::specs::Print::print_from, json::specs::Print::escape_byte))]
pub fn serve_error(fault: RequestFault) -> &'static [u8]
    ensures { result.now ≡ serve_error (request_fault_seen fault) }
{
    match fault {
        RequestFault::LongLine => b"{\"error\":\"the line has more than 8388608 bytes\"}\n",
        RequestFault::NoJson => b"{\"error\":\"the line is no JSON\"}\n",
        RequestFault::NoObject => b"{\"error\":\"the line is no JSON object\"}\n",
        RequestFault::OtherMember => b"{\"error\":\"a member is neither command nor input\"}\n",
        RequestFault::RepeatedMember => b"{\"error\":\"a member comes twice\"}\n",
        RequestFault::NoCommand => b"{\"error\":\"command is missing, or no array of strings\"}\n",
        RequestFault::NoInput => b"{\"error\":\"input is no string\"}\n",
        RequestFault::NestedServe => b"{\"error\":\"serve can't be asked for serve\"}\n",
        RequestFault::Memory => b"{\"error\":\"fault memory\"}\n",
    }
}
