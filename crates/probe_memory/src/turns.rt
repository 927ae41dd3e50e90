// Turns of one end of the run queue.
use crate::says::{or_say, say};
use crate::scripts::Inputs;
use std::alloc::Global;
use std::sync::Wait;
use tn_pool::{RunQueue, Token, TurnEnd};

/// How many turns are taken: four times as many as there are tokens.
const TURNS: u32 = 260;

/// Gives a token up, and says where it came back; then it is given again.
fn give<R: Print + Wait>(rt: &R, end: &mut TurnEnd<'_, Global>, token: Token) {
    let Err(token) = end.give_turn(rt, token) else {
        return say(rt, "given");
    };
    let pick = token.pick();
    let _ = println!(rt; "came back {pick}");
    match end.give_turn(rt, token) {
        Ok(()) => say(rt, "given"),
        Err(_) => say(rt, "came back again"),
    }
}

/// Takes a turn, says its pick and gives it up.
fn turn<R: Print + Wait>(rt: &R, end: &mut TurnEnd<'_, Global>) {
    match end.take_turn(rt) {
        Some(token) => {
            let pick = token.pick();
            let _ = println!(rt; "taken {pick}");
            give(rt, end, token);
        }
        None => say(rt, "empty"),
    }
}

/// One end takes and gives tokens of a full queue. None where a growth was refused before.
pub fn give_turns<R: Print + Wait>(rt: &R, inputs: &Inputs<'_>) -> Option<()> {
    let mut queue = or_say(rt, "queue", RunQueue::full(rt, inputs.alloc))?;
    let mut ends = or_say(rt, "ends", queue.ends(inputs.alloc, 1))?;
    let end = ends.first_mut()?;
    for _ in 0..TURNS {
        turn(rt, end);
    }
    Some(())
}
