// What is noted of a fun that has a specification.

use std::alloc::{Allocator, Global};
use tn_fun_words::{FunWords, notes_of};
use tn_notice::{Notice, print_notice};

/// Says the notes on a fun on standard error, each in a line, where there was memory for them.
pub fn tell_notes<R: Eprint + AllocGlobal>(rt: &R, fun: &FunWords<'_, Global>) {
    let Ok(lines) = notes_of(rt.alloc(), fun) else {
        return;
    };
    let Ok(text) = str::from_utf8(&lines) else {
        return;
    };
    if let Some(text) = text.strip_suffix("\n") {
        print_notice(rt, Notice::Line(text));
    }
}

/// The same of a text, where it is a fun.
pub fn tell_notes_of<R: Eprint + AllocGlobal>(rt: &R, text: &[u8]) {
    if let Ok(fun) = FunWords::of(rt.alloc(), text) {
        tell_notes(rt, &fun);
    }
}
