// The trial of a match specification that a request asks for.
ghost use Rattle.std.specs.Prelude.{◌≡◌};
ghost use Rattle.tn_request.specs.TrialsAsked.{IsTrialAsked, is_end_blank, spec_words_asked, without_full_stop};

use crate::request::SpecTestArgs;
use tn_verdict::SpecTestInput;

/// The text of the specification: that of the words, or the one that was read.
fn spec_words<'a>(trial: &SpecTestArgs<'a>, read: &'a [u8]) -> &'a [u8]
    ensures { result.now ≡ spec_words_asked trial.now.file trial.now.specification read.now }
{
    if trial.file.is_some() {
        return read;
    }
    match trial.specification {
        None | Some("-") => read,
        Some(words) => words.as_bytes(),
    }
}

/// Whether a byte may stand after a full stop.
fn is_end_blank(byte: u8) -> bool
    ensures { result ≡ is_end_blank byte }
{
    byte == b' ' || byte == b'\t' || byte == b'\n' || byte == b'\r'
}

/// A text without a full stop at its end; the text, where it has none.
pub(crate) fn without_full_stop(text: &[u8]) -> &[u8]
    ensures { result.now ≡ without_full_stop text.now }
{
    let mut left = text.len();
    while left > 0 && is_end_blank(text[left - 1]) {
        left -= 1;
    }
    if left > 0 && text[left - 1] == b'.' {
        &text[..left - 1]
    } else {
        text
    }
}

/// What a trial is of, with its first list, and with the text that was read of the specification where none is given.
pub fn spec_input_of<'a>(trial: &SpecTestArgs<'a>, read: &'a [u8]) -> SpecTestInput<'a>
    ensures { IsTrialAsked trial.now read.now result }
{
    SpecTestInput {
        dialect: trial.dialect,
        list: b"",
        self_pid: trial.self_pid,
        caller: trial.caller.map(|words| words.as_bytes()),
        spec: without_full_stop(spec_words(trial, read)),
    }
}
