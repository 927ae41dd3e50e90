// Steps of a core, and what it lends between them.
use crate::says::{Buffer, or_say, say};
use crate::scripts::{Inputs, core_or_say};
use std::alloc::Global;
use tn_listing::{lines_text, listing_text, write_picks};
use tn_trace::{Answer, Core};

/// Takes a step, and says what it came to.
fn step<R: Print>(rt: &R, core: &mut Core<Global>, pick: u32) {
    let _ = match core.step(pick) {
        Ok(Answer::Moved { items: _ }) => println!(rt; "step {pick} moved"),
        Ok(Answer::Idle) => println!(rt; "step {pick} idle"),
        Err(fault) => println!(rt; "step {pick} {fault:?}"),
    };
}

/// Prints each session's listing, or why there is none.
fn print_listings<R: Print>(rt: &R, core: &Core<Global>, buffer: &mut Buffer) {
    let mut session = 0u32;
    for number in 0..core.program().session_count() {
        session = session.saturating_add(1);
        let Some((name, tracer)) = core.program().session_at(number) else {
            continue;
        };
        if let Some(Some(messages)) = or_say(rt, "listing", core.listing(session)) {
            let done = listing_text(name, tracer, messages, &mut buffer.text);
            buffer.print(rt, done);
        }
    }
}

/// Prints all that a core lends, or why there is none.
fn print_core<R: Print>(rt: &R, core: &Core<Global>, buffer: &mut Buffer) {
    print_listings(rt, core, buffer);
    if let Some(replies) = or_say(rt, "replies", core.replies()) {
        say(rt, "== replies");
        let done = lines_text(replies, &mut buffer.text);
        buffer.print(rt, done);
    }
    if let Some(picks) = or_say(rt, "journal", core.journal()) {
        say(rt, "== journal");
        let done = write_picks(picks, &mut buffer.text);
        buffer.print(rt, done);
        say(rt, "");
    }
}

/// A step for each pick and one more, which no process takes, and then all that the core lends. None where a growth
/// was refused before.
pub fn steps_of_a_core<R: Print>(rt: &R, inputs: &Inputs<'_>, buffer: &mut Buffer) -> Option<()> {
    let mut core = core_or_say(rt, inputs)?;
    for pick in inputs.picks {
        step(rt, &mut core, *pick);
    }
    step(rt, &mut core, 999);
    print_core(rt, &core, buffer);
    Some(())
}
