// What a command does to a session of a running node, and its reply.
ghost use Rattle.std.specs.Prelude.{◌≡◌, ◌&&◌, not, IfOk};
ghost use Rattle.std.specs.Option.{option_map};
ghost use Rattle.def_spec.specs.Expressions.{for_calls};
ghost use Rattle.def_session.specs.Settings.{options_of, setting_of};
ghost use Rattle.def_running_node.specs.NodeReplies.{function_reply, has_existing, has_new_processes};
ghost use Rattle.tn_term.specs.Views.{tree_of};
ghost use Rattle.tn_flags.specs.Views.{command_of};
ghost use Rattle.tn_session.specs.Procs.{procs_seen};
ghost use Rattle.tn_running_node.specs.Replies.{function_change_seen, none_listed, IsDoneLive, IsDoneThere};
ghost use Rattle.tn_running_node.specs.Replies.{IsFunctionDoneThere, IsLive, IsProcessDoneThere};

use crate::arguments::{command_once, matches_none};
use crate::function_settings::{
    FunctionChange, change_of, count_reply, disable_internal, disable_own_kind, is_on_where_read,
    model_command,
};
use std::alloc::{AllocError, Allocator};
use tn_flags::{Command, Flags};
use tn_script::Function;
use tn_session::{Procs, Session, flags_of, how_of, options_of, procs_of};
use tn_term::Term;

/// Whether Flags are none, where they are a list of flags.
fn none_listed<A: Allocator>(term: &Term<A>) -> Option<bool>
    ensures { result ≡ none_listed (tree_of term.now) }
{
    match flags_of(term) {
        Some(flags) => Some(Flags::none().has(flags)),
        None => None,
    }
}

/// Whether the processes are, or have among them, those that come.
fn has_new_processes(procs: Procs) -> bool
    ensures { result ≡ has_new_processes (procs_seen procs) }
{
    match procs {
        Procs::New | Procs::All => true,
        Procs::One(_) | Procs::Existing => false,
    }
}

/// Whether they are, or have among them, those that are there.
fn has_existing(procs: Procs) -> bool
    ensures { result ≡ has_existing (procs_seen procs) }
{
    match procs {
        Procs::Existing | Procs::All => true,
        Procs::One(_) | Procs::New => false,
    }
}

/// Whether a command about these processes that sets or clears flags, which may be none, clears all of the flags for
/// new processes.
fn clears_new_flags(procs: Procs, on: bool, none: bool) -> bool
    ensures { result ≡ (has_new_processes (procs_seen procs) && (not on && not none)) }
{
    has_new_processes(procs) && !on && !none
}

/// Whether it counts nobody.
fn counts_nobody(procs: Procs, none: bool) -> bool
    ensures { result ≡ (has_existing (procs_seen procs) && none) }
{
    has_existing(procs) && none
}

/// What a command about flags does beside that of the model, which was done, and its reply: `false` for new
/// processes clears all their flags, and without flags nobody is counted.
fn process_there<A: Allocator + Copy>(
    session: &mut Session<A>,
    procs: &Term<A>,
    how: &Term<A>,
    flags: &Term<A>,
    reply: Term<A>,
) -> Term<A>
    ensures { IsProcessDoneThere (tree_of procs.now) (tree_of how.now) (tree_of flags.now)
        session.old session.new (tree_of reply) (tree_of result) }
{
    let (Some(procs), Some(on), Some(none)) = (procs_of(procs), how_of(how), none_listed(flags))
    else {
        return reply;
    };
    if clears_new_flags(procs, on, none) {
        session.set_new_process_flags(Flags::none());
    }
    if counts_nobody(procs, none) {
        return Term::Int(0);
    }
    reply
}

/// What a function command to a live session does, and its reply: `false` disables the functions alone that have a
/// setting of its kind, and a global setting takes the local one of a function that isn't exported.
fn function_there<A: Allocator + Copy>(
    alloc: A,
    functions: &[Function<A>],
    session: &mut Session<A>,
    command: &Command<A>,
    change: &Option<FunctionChange<A>>,
) -> Result<Term<A>, AllocError>
    ensures { IfOk result (λ t. IsFunctionDoneThere functions.now (command_of command.now)
        (option_map function_change_seen change.now) session.old session.new (tree_of t)) }
{
    let Some(change) = change else {
        return Ok(model_command(session, command)?);
    };
    let name = command.session();
    if !change.on {
        disable_own_kind(
            alloc,
            session,
            name,
            functions,
            &change.covered,
            change.local,
        )?;
        return Ok(count_reply(functions, &change.covered, change.local));
    }
    if change.local {
        return Ok(model_command(session, command)?);
    }
    disable_internal(alloc, session, name, functions, &change.covered)?;
    Ok(model_command(session, command)?)
}

/// The reply to a function command with these arguments, which is this one in the model: 0, where they are read, but
/// the arity is none that a function has.
fn function_reply<A: Allocator + Copy>(
    alloc: A,
    mfa: &Term<A>,
    specification: &Term<A>,
    options: &Term<A>,
    reply: Term<A>,
) -> Result<Term<A>, AllocError>
    ensures { IfOk result (λ t. tree_of t ≡ function_reply (tree_of mfa.now) (options_of (tree_of options.now))
        (setting_of for_calls (tree_of specification.now)) (tree_of reply)) }
{
    if !matches_none(mfa) || options_of(options).is_none() {
        return Ok(reply);
    }
    match is_on_where_read(alloc, specification)? {
        Some(_) => Ok(Term::Int(0)),
        None => Ok(reply),
    }
}

/// What a command does to a live session, and its reply.
fn live_command_there<A: Allocator + Copy>(
    alloc: A,
    functions: &[Function<A>],
    session: &mut Session<A>,
    command: &Command<A>,
) -> Result<Term<A>, AllocError>
    ensures { IfOk result (λ t. IsDoneLive functions.now (command_of command.now)
        session.old session.new (tree_of t)) }
{
    match command {
        Command::Process {
            procs,
            how,
            flags,
            ..
        } => {
            let reply = model_command(session, command)?;
            Ok(process_there(session, procs, how, flags, reply))
        }
        Command::Function {
            mfa,
            specification,
            options,
            ..
        } => {
            let change = change_of(alloc, mfa, specification, options)?;
            let reply = function_there(alloc, functions, session, command, &change)?;
            Ok(function_reply(alloc, mfa, specification, options, reply)?)
        }
        _ => Ok(model_command(session, command)?),
    }
}

/// Whether the session is live. An error is refused memory.
fn is_live<A: Allocator + Copy>(session: &Session<A>) -> Result<bool, AllocError>
    ensures { IfOk result (IsLive session.now) }
{
    match session.look() {
        Some(look) => Ok(look.is_live()),
        None => Err(AllocError),
    }
}

/// What a command does to a session of a running node, and its reply.
///
/// # Errors
///
/// AllocError where memory was refused, or where a function with the name `'_'`, which no script declares, is to be
/// disabled.
pub fn command_there<A: Allocator + Copy>(
    alloc: A,
    functions: &[Function<A>],
    session: &mut Session<A>,
    command: &Command<A>,
) -> Result<Term<A>, AllocError>
    ensures { IfOk result (λ t. IsDoneThere functions.now (command_of command.now)
        session.old session.new (tree_of t)) }
{
    if !is_live(session)? {
        return Ok(model_command(session, command)?);
    }
    match command_once(alloc, command)? {
        Some(once) => Ok(live_command_there(alloc, functions, session, &once)?),
        None => Ok(live_command_there(alloc, functions, session, command)?),
    }
}
