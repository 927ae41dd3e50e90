// What is written beside a row.
ghost use Rattle.std.specs.Prelude.{◌≡◌, ◌++◌, ◌∷◌, [], IfOk, OnOk, codes, flat_map, map};
ghost use Rattle.def_term.specs.Text.{w};
ghost use Rattle.def_term.specs.Tree.{atom};
ghost use Rattle.def_picture.specs.Picture.{call_label, command_label, event_label};
ghost use Rattle.tn_term.specs.Views.{tree_of};
ghost use Rattle.tn_flags.specs.Views.{command_of, event_of};

use std::alloc::{AllocError, Allocator};
use tn_flags::{Command, Event};
use tn_session::Message;
use tn_term::{Atom, Term};
use tn_text::{write_atom, write_term};

/// The trace message that an event has, whoever reports it.
pub(crate) fn event_label<A: Allocator + Copy>(
    alloc: A,
    event: &Event<A>,
) -> Result<Vec<u8, A>, AllocError>
    ensures { IfOk result (λ v. v.items ≡ event_label (event_of event.now)) }
{
    let message = Message {
        event,
        short: false,
        last: None,
    };
    let mut text = Vec::new(alloc);
    message.append_text(&mut text)?;
    Ok(text)
}

/// Appends each of the terms, after a blank.
fn append_terms<A: Allocator>(terms: &[&Term<A>], out: &mut Vec<u8, A>) -> Result<(), AllocError>
    ensures { OnOk result (out.new.items ≡
        out.old.items ++ flat_map (λ t. 32 ∷ w t) (map (λ t. tree_of t.now) terms.now)) }
{
    for term in terms {
        out.push(b' ')?;
        write_term(term, out)?;
    }
    Ok(())
}

/// The name of a function of the module `trace`, a session, and the other arguments.
fn call_label<A: Allocator + Copy>(
    alloc: A,
    function: &'static [u8],
    session: &Atom<A>,
    arguments: &[&Term<A>],
) -> Result<Vec<u8, A>, AllocError>
    ensures { IfOk result (λ v. v.items ≡
        call_label function.now session.now (map (λ t. tree_of t.now) arguments.now)) }
{
    let mut text = Vec::new(alloc);
    text.extend_from_slice(function)?;
    write_atom(session, &mut text)?;
    append_terms(arguments, &mut text)?;
    Ok(text)
}

/// The label of the creation of a session.
fn creation_label<A: Allocator + Copy>(
    alloc: A,
    session: &Atom<A>,
    tracer: &Atom<A>,
) -> Result<Vec<u8, A>, AllocError>
    ensures { IfOk result (λ v. v.items ≡
        call_label (codes "session_create ") session.now (atom tracer.now ∷ [])) }
{
    let mut text = call_label(alloc, b"session_create ", session, &[])?;
    text.push(b' ')?;
    write_atom(tracer, &mut text)?;
    Ok(text)
}

/// A command's name, its session, and what it sets.
pub(crate) fn command_label<A: Allocator + Copy>(
    alloc: A,
    command: &Command<A>,
) -> Result<Vec<u8, A>, AllocError>
    ensures { IfOk result (λ v. v.items ≡ command_label (command_of command.now)) }
{
    match command {
        Command::SessionCreate { session, tracer } => creation_label(alloc, session, tracer),
        Command::SessionDestroy { session } => call_label(alloc, b"session_destroy ", session, &[]),
        Command::Process {
            session,
            procs,
            how,
            flags,
        } => call_label(alloc, b"process ", session, &[procs, how, flags]),
        Command::Function {
            session,
            mfa,
            specification,
            options,
        } => call_label(alloc, b"function ", session, &[mfa, specification, options]),
        Command::Send {
            session,
            specification,
        } => call_label(alloc, b"send ", session, &[specification]),
        Command::Recv {
            session,
            specification,
        } => call_label(alloc, b"recv ", session, &[specification]),
    }
}
