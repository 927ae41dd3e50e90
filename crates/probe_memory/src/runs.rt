// Runs of a script, by picks and by one worker.
use crate::says::{Buffer, or_say, print_bytes, say};
use crate::scripts::Inputs;
use std::io;
use std::io::{ErrorKind, Write};
use std::sync::Wait;
use std::thread::Threads;
use tn_pool::Open;
use tn_run::{Outcome, Schedule, Workers, run, run_live};
use tn_text::Watched;

/// How many turns one worker takes: some passes more than the test's scripts need.
pub const TURNS: u32 = 1300;

/// Says what a run came to where it is one line, and prints what it wrote.
fn say_outcome<R: Print>(rt: &R, outcome: Option<Outcome>, written: &[u8]) {
    match outcome {
        Some(Outcome::Listed) => say(rt, "listed"),
        Some(Outcome::Refused(_)) => say(rt, "refused"),
        None => {}
    }
    print_bytes(rt, written);
}

/// What `run` answers over a writer; a fault is said.
fn outcome_by_picks<R: Print, W: Write + Drop>(
    rt: &R,
    inputs: &Inputs<'_>,
    writer: W,
) -> Option<Outcome> {
    let mut reader = Watched::of(inputs.text);
    let mut writer = Watched::of(writer);
    let picks = Schedule::Picks(inputs.picks_text.as_bytes());
    or_say(
        rt,
        "run",
        run(inputs.alloc, &mut reader, &mut writer, picks),
    )
}

/// What `run` answers, and then what it wrote.
pub fn run_by_picks<R: Print>(rt: &R, inputs: &Inputs<'_>, buffer: &mut Buffer) {
    let outcome = outcome_by_picks(rt, inputs, &mut buffer.text);
    say_outcome(rt, outcome, &buffer.text);
}

/// A writer that takes so many bytes and then fails, and whose flush fails.
#[derive(Drop)]
struct Full<'a> {
    text: &'a mut Vec<u8>,
    left: usize,
}

impl<'a> Write for Full<'a> {
    fn write(&mut self, buf: &[u8]) -> io::Result<usize> {
        let count = buf.len().min(self.left);
        if count < buf.len() && count == 0 {
            return Err(io::Error::from(ErrorKind::BrokenPipe));
        }
        self.text.extend_from_slice(&buf[..count])?;
        self.left -= count;
        Ok(count)
    }

    fn flush(&mut self) -> io::Result<()> {
        Err(io::Error::from(ErrorKind::BrokenPipe))
    }
}

/// What `run` answers where the writer takes as many bytes as the third word says, and then what it took.
pub fn run_to_a_full_end<R: Print>(rt: &R, inputs: &Inputs<'_>, buffer: &mut Buffer) {
    let left = inputs.list.parse::<usize>().unwrap_or(0);
    let text = &mut buffer.text;
    let outcome = outcome_by_picks(rt, inputs, Full { text, left });
    say_outcome(rt, outcome, &buffer.text);
}

/// What `run_live` answers of one worker over a writer; a fault is said.
fn outcome_by_workers<R: Print + Threads + Wait + Sync, W: Write + Drop>(
    rt: &R,
    inputs: &Inputs<'_>,
    writer: W,
) -> Option<Outcome> {
    let mut reader = Watched::of(inputs.text);
    let mut writer = Watched::of(writer);
    let workers = Workers {
        count: 1,
        turns: TURNS,
        memory: u64::MAX,
        gate: &Open,
    };
    let ran = run_live(rt, inputs.alloc, &mut reader, &mut writer, &workers);
    or_say(rt, "run_live", ran).map(|ran| ran.outcome)
}

/// What `run_live` answers of one worker, and then what it wrote.
pub fn run_by_workers<R: Print + Threads + Wait + Sync>(
    rt: &R,
    inputs: &Inputs<'_>,
    buffer: &mut Buffer,
) {
    let outcome = outcome_by_workers(rt, inputs, &mut buffer.text);
    say_outcome(rt, outcome, &buffer.text);
}
