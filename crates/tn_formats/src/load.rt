// How many messages there are, and how many bytes they have.
ghost use Rattle.std.specs.Prelude.{◌≡◌};
ghost use Rattle.std.specs.Option.{option_map};
ghost use Rattle.def_formats.specs.Sections.{section_lines};
ghost use Rattle.def_formats.specs.Summaries.{is_message_of_kind, load_of};
ghost use Rattle.tn_formats.specs.Values.{load_seen};

use crate::parts::message_parts;
use crate::section::next_line;

/// So many messages, whose texts have so many bytes.
#[derive(Clone, Copy)]
pub(crate) struct Load {
    pub messages: usize,
    pub bytes: usize,
}

/// Whether a message is of this kind, where one is given.
fn is_message_of_kind(line: &[u8], kind: Option<&[u8]>) -> bool
    ensures { result ≡ is_message_of_kind (option_map (λ k. k.now) kind.entry) line.now }
{
    match kind {
        Some(kind) => message_parts(line).1 == kind,
        None => true,
    }
}

/// The load of the messages of a section that are of this kind, or of all where none is given.
pub(crate) fn load_of(text: &[u8], kind: Option<&[u8]>) -> Load
    ensures { load_seen result ≡ load_of (option_map (λ k. k.now) kind.entry) (section_lines text.now) }
{
    let mut load = Load {
        messages: 0,
        bytes: 0,
    };
    let mut rest = text;
    while let Some((line, after)) = next_line(rest) {
        if is_message_of_kind(line, kind) {
            load.messages += 1;
            load.bytes += line.len();
        }
        rest = after;
    }
    load
}
