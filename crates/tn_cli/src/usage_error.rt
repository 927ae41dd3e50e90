// Why `clap` refuses words, with what is expected in their place.
use clap::error::ErrorKind;
use std::alloc::{AllocError, Global};

/// Whether the text refuses a number, of a command that takes picks.
fn refuses_pick(text: &str) -> bool {
    let Some(word) = text.strip_prefix("error: unexpected argument '") else {
        return false;
    };
    matches!(word.as_bytes().first(), Some(b'0'..=b'9')) && word.contains("--picks")
}

/// The text with what is to be done about picks that aren't in quotes.
fn with_picks_tip(alloc: Global, text: &str) -> Result<String, AllocError> {
    let (line, rest) = text.split_once("\n").unwrap_or((text, ""));
    format!(in alloc; "{line}\n\n  tip: picks are one word, as in --picks '0 100 100'\n{rest}")
}

/// The text without the advice to pass an option as a value, which is of no use here.
fn without_advice(alloc: Global, text: &str) -> Result<String, AllocError> {
    let Some((before, advice)) = text.split_once("\n  tip: to pass '") else {
        return format!(in alloc; "{text}");
    };
    let (_, after) = advice.split_once("\n").unwrap_or((advice, ""));
    let joined = format!(in alloc; "{before}\n{after}")?;
    joined.replace(alloc, "\n\n\n", "\n\n")
}

/// Why an argument is refused.
fn argument_text(alloc: Global, text: &str) -> Result<String, AllocError> {
    if refuses_pick(text) {
        return with_picks_tip(alloc, text);
    }
    without_advice(alloc, text)
}

/// Which number is the greatest of the option that a text refuses a number of.
fn greatest(text: &str) -> &'static str {
    if text.contains("' for '--max-memory <BYTES>'") {
        "the greatest number is 18446744073709551615"
    } else {
        "the greatest number is 4294967295"
    }
}

/// Why a number is refused.
fn number_text(alloc: Global, text: &str) -> Result<String, AllocError> {
    let expected = "a decimal number is expected";
    let text = text.replace(alloc, "invalid digit found in string", expected)?;
    let text = text.replace(alloc, "cannot parse integer from empty string", expected)?;
    text.replace(
        alloc,
        "number too large to fit in target type",
        greatest(&text),
    )
}

/// Why `clap` refuses words, as it is printed.
fn usage_text(alloc: Global, error: &clap::Error) -> Result<String, AllocError> {
    let text = format!(in alloc; "{error}")?;
    match error.kind() {
        ErrorKind::ValueValidation => number_text(alloc, &text),
        ErrorKind::UnknownArgument => argument_text(alloc, &text),
        _ => Ok(text),
    }
}

/// Prints on standard error why `clap` refuses words. Where that fails, nothing is said.
pub fn print_usage_error<R: Print + Eprint + AllocGlobal>(rt: &R, error: &clap::Error) {
    match usage_text(rt.alloc(), error) {
        Ok(text) => {
            let _ = rt.eprint(&text);
        }
        Err(_) => {
            let _ = error.print(rt);
        }
    }
}
