// The state after some picks.
ghost use Rattle.std.specs.Prelude.{◌≡◌, ◌++◌, OnOk};
ghost use Rattle.std.specs.Option.{option_map};
ghost use Rattle.def_run.specs.Run.{moves};
ghost use Rattle.def_state.specs.States.{text_after};
ghost use Rattle.tn_program.specs.Views.{program_of};
ghost use Rattle.tn_state.specs.Sessions.{PutsRun};

use crate::process::put_processes;
use crate::session::{SessionContext, put_sessions};
use std::alloc::{AllocError, Allocator};
use tn_moves::{Plan, drive};
use tn_program::Program;
use tn_trace::{Discard, Recorder, Run};

/// Appends the state that a run is in.
fn put_run<A: Allocator + Copy>(
    alloc: A,
    program: &Program<A>,
    run: &Run<A, Recorder<A, Discard>>,
    asked: Option<&str>,
    out: &mut Vec<u8, A>,
) -> Result<(), AllocError>
    ensures { PutsRun (option_map (λ s. s.now) asked.entry) program.now run.now out.old.items out.new.items result }
{
    let node = run.node();
    let Some(processes) = node.processes() else {
        return Err(AllocError);
    };
    let Some(taken) = node.commands_taken() else {
        return Err(AllocError);
    };
    if taken > program.commands().len() || processes.len() > 64 {
        return Err(AllocError);
    }
    let context = SessionContext {
        alloc,
        program,
        taken,
        asked,
    };
    put_sessions(&context, &run.observer().slots, out)?;
    put_processes(alloc, program.functions(), processes, out)
}

/// Appends the state of the program after those of these picks that move.
pub(crate) fn put_state<A: Allocator + Copy>(
    alloc: A,
    program: &Program<A>,
    picks: &[u32],
    asked: Option<&str>,
    out: &mut Vec<u8, A>,
) -> Result<(), AllocError>
    ensures { let p = program_of program.now in OnOk result (out.new.items ≡ out.old.items ++
        text_after (option_map (λ s. s.now) asked.entry) p (moves p picks.now)) }
{
    let recorder = Recorder::<A, Discard>::new(alloc, program)?;
    let mut given = Vec::new(alloc);
    let plan = Plan::Picks(picks);
    let run = drive(alloc, program, &plan, recorder, &mut given)?;
    put_run(alloc, program, &run, asked, out)
}
