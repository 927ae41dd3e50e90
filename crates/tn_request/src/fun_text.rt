// The text of the fun that a request asks for.
ghost use Rattle.std.specs.Prelude.{◌≡◌, None};
ghost use Rattle.tn_request.specs.TrialsAsked.{spec_words_asked};

use crate::request::FunArgs;

/// The text of the fun: that of the words, or the one that was read.
pub fn fun_text_of<'a>(fun: &FunArgs<'a>, read: &'a [u8]) -> &'a [u8]
    ensures { result.now ≡ spec_words_asked None fun.now.text read.now }
{
    match fun.text {
        None | Some("-") => read,
        Some(words) => words.as_bytes(),
    }
}
