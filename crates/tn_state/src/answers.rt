// The state of a run, where the session and the move that are asked for are there.
ghost use Rattle.std.specs.Prelude.{◌≡◌, true, false, IfOk, map};
ghost use Rattle.std.specs.Option.{option_map};
ghost use Rattle.def_script.specs.Rules.{creates_session, is_created};
ghost use Rattle.tn_flags.specs.Views.{command_of};
ghost use Rattle.tn_moves.specs.Plans.{plan_picks};
ghost use Rattle.tn_program.specs.Views.{program_of};
ghost use Rattle.tn_state.specs.Requests.{HasSession, IsStateReport, LacksSession};

use crate::request::{StateOutcome, StateQuestion};
use crate::state::put_state;
use std::alloc::{AllocError, Allocator};
use tn_flags::Command;
use tn_moves::{Plan, moves_of_plan};
use tn_program::Program;

/// Whether the command creates a session of this name.
fn creates<A: Allocator>(command: &Command<A>, name: &str) -> bool
    ensures { result ≡ creates_session name.now (command_of command.now) }
{
    match command {
        Command::SessionCreate { session, .. } => session.text() == name,
        _ => false,
    }
}

/// Whether one of the commands creates a session of this name.
fn has_session<A: Allocator>(commands: &[Command<A>], name: &str) -> bool
    ensures { result ≡ is_created (map command_of commands.now) name.now }
{
    for command in commands {
        if creates(command, name) {
            return true;
        }
    }
    false
}

/// Whether a session is asked for that the control list doesn't create.
fn lacks_session<A: Allocator>(program: &Program<A>, asked: Option<&str>) -> bool
    ensures lacks { result ≡ true → LacksSession (option_map (λ s. s.now) asked.entry) (program_of program.now) }
    ensures has { result ≡ false → HasSession (option_map (λ s. s.now) asked.entry) (program_of program.now) }
{
    match asked {
        Some(name) => !has_session(program.commands(), name),
        None => false,
    }
}

/// The state of the program's run by a plan, where the session and the move that are asked for are there; else no text,
/// and which of them isn't there.
///
/// # Errors
///
/// AllocError where memory was refused.
pub fn state_of<A: Allocator + Copy>(
    alloc: A,
    program: &Program<A>,
    plan: &Plan<'_, A>,
    question: &StateQuestion<'_>,
) -> Result<(StateOutcome, Vec<u8, A>), AllocError>
    ensures { let p = program_of program.now in
        IfOk result (λ r. IsStateReport p (plan_picks p plan.now) question.now r.0 r.1.items) }
{
    let mut out = Vec::new(alloc);
    if lacks_session(program, question.session) {
        return Ok((StateOutcome::NoSession, out));
    }
    let journal = moves_of_plan(alloc, program, plan)?;
    if question.move_number > journal.len() as u64 {
        return Ok((StateOutcome::NoMove, out));
    }
    let front = &journal[..question.move_number as usize];
    put_state(alloc, program, front, question.session, &mut out)?;
    Ok((StateOutcome::State, out))
}
