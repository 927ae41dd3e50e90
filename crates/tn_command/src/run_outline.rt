// What is known of a run beside an outcome that has no answer: which sessions its script creates, how many moves it
// has, and how many messages a session sends.
ghost use Rattle.std.specs.Prelude.{◌≡◌, IfOk};
ghost use Rattle.std.specs.Option.{option_map};
ghost use Rattle.tn_program.specs.Views.{program_of};
ghost use Rattle.tn_command.specs.Notices.{AreMessagesOfRun, AreMovesOfRun, AreSessionsOf, session_names};

use std::alloc::{AllocError, Global};
use tn_message_choice::message_count;
use tn_moves::{Schedule, moves_of_plan};
use tn_program::Program;
use tn_run::accept;
use tn_text::write_atom;

/// What may be known of a run.
#[derive(Clone, Copy)]
pub(crate) struct RunOutline<'a> {
    /// The names of the sessions that its script creates.
    pub sessions: Option<&'a str>,
    /// How many moves it has.
    pub moves: Option<u64>,
    /// How many messages the session sends that is asked about.
    pub messages: Option<u64>,
}

/// The names of the sessions that a program creates, with commas between them.
fn session_names(alloc: Global, program: &Program<Global>) -> Result<Vec<u8>, AllocError>
    ensures { IfOk result (λ v. v.items ≡ session_names (program_of program.now)) }
{
    let mut names = Vec::new(alloc);
    let mut between: &[u8] = b"";
    for number in 0..program.session_count() {
        let Some((name, _)) = program.session_at(number) else {
            return Err(AllocError);
        };
        names.extend_from_slice(between)?;
        write_atom(name, &mut names)?;
        between = b", ";
    }
    Ok(names)
}

/// The names of the sessions that a script creates; None where it is refused, or memory was.
pub(crate) fn sessions_of(alloc: Global, script: &[u8]) -> Option<Vec<u8>>
    ensures { AreSessionsOf script.now (option_map (λ v. v.items) result) }
{
    let Ok(program) = accept(alloc, script) else {
        return None;
    };
    session_names(alloc, &program).ok()
}

/// The names as text, where there are some.
pub(crate) fn names_text(names: &Option<Vec<u8>>) -> Option<&str> {
    match names {
        Some(names) => str::from_utf8(names).ok(),
        None => None,
    }
}

/// How many moves the run of a script by a schedule has; None where one of both is refused, or memory was.
pub(crate) fn move_count(alloc: Global, script: &[u8], schedule: &Schedule<'_>) -> Option<u64>
    ensures { AreMovesOfRun script.now schedule.now result }
{
    let Ok(program) = accept(alloc, script) else {
        return None;
    };
    let Ok(picks) = schedule.picks_of_text(alloc) else {
        return None;
    };
    let Ok(plan) = schedule.plan(alloc, &program, &picks) else {
        return None;
    };
    let Ok(moves) = moves_of_plan(alloc, &program, &plan) else {
        return None;
    };
    Some(moves.len() as u64)
}

/// How many messages the session of a name sends in the run of a script by a schedule; None where one of both is
/// refused, or memory was.
pub(crate) fn sent_count(
    alloc: Global,
    script: &[u8],
    schedule: &Schedule<'_>,
    session: &str,
) -> Option<u64>
    ensures { AreMessagesOfRun script.now schedule.now session.now result }
{
    let Ok(program) = accept(alloc, script) else {
        return None;
    };
    let Ok(picks) = schedule.picks_of_text(alloc) else {
        return None;
    };
    let Ok(plan) = schedule.plan(alloc, &program, &picks) else {
        return None;
    };
    let Ok(count) = message_count(alloc, &program, &plan, session) else {
        return None;
    };
    count
}
