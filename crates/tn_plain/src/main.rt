//! The runs `run`, `replay --picks TEXT` and `round [--limit N]` of `tracenode`, in a program without `clap`.
//!
//! The start script runs it where the whole program isn't built yet, since it takes little more than half the time to
//! compile. Depends on tn_command and tn_explain. Other words are refused with status 2.
#![tactic(auto)]

ghost use Rattle.std.specs.Prelude.{SomeIff, IfSome, IfNone, drop, map, string_bytes};
ghost use Rattle.std.specs.Process.{exit_status};
ghost use Rattle.tn_command.specs.Status.{IsStatus};
ghost use Rattle.tn_moves.specs.Schedules.{schedule_seen};
ghost use Rattle.tn_plain.specs.Words.{IsLimit, spelled_number, AsksFor, AsksNothing};

use std::process::ExitCode;
use std::rt::{Env, Files};
use tn_command::{
    MAX_MEMORY, MAX_OUTPUT, REFUSED, Source, WithinBytes, arguments, perform, plain_number,
};
use tn_expectation::Expectation;
use tn_memory::WithinMemory;
use tn_moves::Schedule;
use tn_notice::{Notice, print_notice};
use tn_replay::Replay;
use tn_trace::JOURNAL;

/// How many picks of a round may move where no limit is given.
const LIMIT: u32 = 10_000;

/// The most picks of a round that may move: as many as a journal has places.
const MOST: u32 = JOURNAL as u32;

/// The limit that a word spells: a number from 1 to 65536.
fn limit(word: &str) -> Option<u32>
    ensures { SomeIff result (IsLimit word.now) (spelled_number word.now) }
{
    match plain_number(word) {
        Some(limit) if limit >= 1 && limit <= MOST => Some(limit),
        _ => None,
    }
}

/// What the words after the program's name ask for; None where that isn't one of these runs.
fn schedule(words: &[String]) -> Option<Schedule<'_>>
    ensures some { IfSome result (λ s. AsksFor (drop 1 (map string_bytes words.now)) (schedule_seen s)) }
    ensures none { IfNone result (AsksNothing (drop 1 (map string_bytes words.now))) }
{
    if words.len() == 2 && words[1].as_str() == "run" {
        return Some(Schedule::ControlFirst(LIMIT));
    }
    if words.len() == 2 && words[1].as_str() == "round" {
        return Some(Schedule::Round(LIMIT));
    }
    if words.len() != 4 {
        return None;
    }
    let value = words[3].as_str();
    match (words[1].as_str(), words[2].as_str()) {
        ("replay", "--picks") => Some(Schedule::Picks(value.as_bytes())),
        ("round", "--limit") => Some(Schedule::Round(limit(value)?)),
        _ => None,
    }
}

/// Does what the words of the command line ask for.
fn start<R: Env + Input + Files + Print + Eprint + AllocGlobal>(rt: &R) -> ExitCode
    ensures { IsStatus (exit_status result) }
{
    let words = match arguments(rt) {
        Ok(words) => words,
        Err(status) => return status,
    };
    match schedule(&words) {
        Some(schedule) => {
            let job = &Replay {
                schedule,
                has_notes: true,
                quiet: false,
            };
            let most = MAX_OUTPUT;
            let within = &WithinBytes { job, most };
            let heap = WithinMemory::of(rt.alloc(), MAX_MEMORY);
            perform(rt, &heap, Source::Input, within, &Expectation::NONE)
        }
        None => {
            let words = "error: the words are run, replay --picks TEXT, or round [--limit N]";
            print_notice(rt, Notice::Line(words));
            ExitCode::from(REFUSED)
        }
    }
}

/// The program with the runtime of its process.
fn main(rt: HostRuntime) -> ExitCode {
    start(&rt)
}
