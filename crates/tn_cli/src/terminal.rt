// Whether a terminal shows colours.
use std::env;
use std::rt::Env;

/// Whether the environment asks for no colours: `NO_COLOR` is there and isn't empty, or the terminal has none.
fn lacks_colours<R: Env + AllocGlobal>(rt: &R) -> bool {
    let refuses = matches!(env::var(rt, "NO_COLOR"), Ok(text) if !text.is_empty());
    refuses || matches!(env::var(rt, "TERM"), Ok(text) if text.as_str() == "dumb")
}

/// Whether the output is in colours where the words don't say it: on a terminal, and where the environment doesn't ask
/// for none.
pub(crate) fn shows_colours<R: Env + AllocGlobal>(rt: &R, is_terminal: bool) -> bool {
    is_terminal && !lacks_colours(rt)
}
