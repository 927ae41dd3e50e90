//! Calls of the layers, as a library's user makes them, and what each answers, a line each.
//!
//! The first word names a call, the second spells picks; standard input is a script. For `execute` it is a
//! specification, the third word a list, the fourth a dialect. Depends on the layers from tn_text to tn_run. It
//! promises only safety.
#![tactic(auto)]

mod codes;
mod cores;
mod locks;
mod runs;
mod says;
mod scripts;
mod turns;
mod workers;

use crate::codes::execute_twice;
use crate::cores::steps_of_a_core;
use crate::locks::steps_by_two_seats;
use crate::runs::{run_by_picks, run_by_workers, run_to_a_full_end};
use crate::says::Buffer;
use crate::scripts::Inputs;
use crate::turns::give_turns;
use crate::workers::run_one_worker;
use std::env::args;
use std::io;
use std::process::ExitCode;
use std::rt::Env;
use std::sync::Wait;
use std::thread::Threads;
use tn_listing::read_picks;
use tn_run::read_text;
use tn_text::Watched;

/// The word at a place; the empty one past the last.
fn word(words: &[String], place: usize) -> &str {
    match words.get(place) {
        Some(word) => word.as_str(),
        None => "",
    }
}

/// Calls the layer that the first word names. Whether there is one of that name.
fn call<R: Print + Threads + Wait + Sync + AllocGlobal>(
    rt: &R,
    name: &str,
    inputs: &Inputs<'_>,
    buffer: &mut Buffer,
) -> bool {
    let _ = match name {
        "run" => Some(run_by_picks(rt, inputs, buffer)),
        "full" => Some(run_to_a_full_end(rt, inputs, buffer)),
        "core" => steps_of_a_core(rt, inputs, buffer),
        "live" => steps_by_two_seats(rt, inputs),
        "execute" => execute_twice(rt, inputs),
        "give_turn" => give_turns(rt, inputs),
        "run_live" => Some(run_by_workers(rt, inputs, buffer)),
        "run_workers" => run_one_worker(rt, inputs, false),
        "lines" => run_one_worker(rt, inputs, true),
        _ => return false,
    };
    true
}

/// The words of the command line, the program's own name first.
fn words<R: Env + AllocGlobal>(rt: &R) -> io::Result<Vec<String>> {
    let mut words = Vec::new(rt.alloc());
    for word in args(rt)? {
        words.push(word)?;
    }
    Ok(words)
}

/// Says that a growth of the program's own was refused: the exit status.
fn end_with_fault<R: Eprint>(rt: &R) -> ExitCode {
    let _ = rt.eprintln("fault memory");
    ExitCode::from(3)
}

/// Reads the inputs of the layers, and calls the one that the words name: the exit status. Where memory for the inputs
/// is refused, which is before the first call, it is that of a fault, and standard output gets nothing.
fn start<R: Env + Input + Print + Eprint + Threads + Wait + Sync + AllocGlobal>(
    rt: &R,
) -> ExitCode {
    let Ok(words) = words(rt) else {
        return end_with_fault(rt);
    };
    let Ok(text) = read_text(rt.alloc(), &mut Watched::of(rt.reader())) else {
        return end_with_fault(rt);
    };
    let Ok(picks) = read_picks(rt.alloc(), word(&words, 2).as_bytes()) else {
        return end_with_fault(rt);
    };
    let Ok(mut buffer) = Buffer::with_room(rt.alloc()) else {
        return end_with_fault(rt);
    };
    let inputs = Inputs {
        alloc: rt.alloc(),
        text: &text,
        picks_text: word(&words, 2),
        picks: &picks,
        list: word(&words, 3),
        dialect: word(&words, 4),
    };
    if call(rt, word(&words, 1), &inputs, &mut buffer) {
        ExitCode::SUCCESS
    } else {
        ExitCode::from(2)
    }
}

/// The program with the runtime of its process.
fn main(rt: HostRuntime) -> ExitCode {
    start(&rt)
}
