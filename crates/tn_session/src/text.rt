// The text of a message.
ghost use Rattle.std.specs.Prelude.{◌≡◌, ◌++◌, ◌∷◌, pos, OnOk};
ghost use Rattle.def_term.specs.Tree.{of_elements, int, pid as pid_tree, list};
ghost use Rattle.def_term.specs.Names.{mfa_term};
ghost use Rattle.def_term.specs.Text.{w, comma_list, atom_text, each_after_comma};
ghost use Rattle.tn_term.specs.Views.{tree_of, mfa_seen};
ghost use Rattle.def_session.specs.Messages.{class_term};
ghost use Rattle.tn_flags.specs.Views.{class_of, event_of};
ghost use Rattle.tn_text.specs.Writes.{Grows};
ghost use Rattle.tn_session.specs.Messages.{event_name, front_text, details_text, elements_text};
ghost use Rattle.tn_session.specs.Messages.{names_text, shared_trees, call_tree, exception_tree, last_seen};

use crate::event::process_of;
use std::alloc::{AllocError, Allocator};
use tn_flags::{Class, Event};
use tn_guard::{Value, write_value};
use tn_term::{Mfa, SharedTerm, Term};
use tn_text::{write_atom, write_pid, write_term};

/// Appends the text of an event's elements, after a brace and with a comma between any two; a call's
/// names the arity alone where `short`.
pub(crate) fn put_elements<A: Allocator, B: Allocator>(
    event: &Event<A>,
    short: bool,
    out: &mut Vec<u8, B>,
) -> Result<(), AllocError>
    ensures ok { OnOk result (out.new.items ≡ out.old.items ++ elements_text short (event_of event.now)) }
    ensures grows { Grows out.old.items out.new.items }
{
    put_front(event, out)?;
    put_details(event, short, out)?;
    Ok(())
}

/// Appends `{trace,<0.N.0>,` and the kind.
fn put_front<A: Allocator, B: Allocator>(
    event: &Event<A>,
    out: &mut Vec<u8, B>,
) -> Result<(), AllocError>
    ensures ok { OnOk result (out.new.items ≡ out.old.items ++ front_text (event_of event.now)) }
    ensures grows { Grows out.old.items out.new.items }
{
    out.extend_from_slice(b"{trace,")?;
    write_pid(process_of(event), out)?;
    out.push(b',')?;
    out.extend_from_slice(kind_text(event))?;
    Ok(())
}

/// The written text of the kind of an event.
#[tactic(auto, unfolding(def_term::specs::Text::is_written_bare))]
fn kind_text<A: Allocator>(event: &Event<A>) -> &'static [u8]
    ensures { result.now ≡ atom_text (event_name (event_of event.now)) }
{
    match event {
        Event::Sent { alive, .. } => {
            if *alive {
                b"send"
            } else {
                b"send_to_non_existing_process"
            }
        }
        Event::Received { .. } => b"'receive'",
        Event::Called { .. } => b"call",
        Event::Returned { .. } => b"return_from",
        Event::Raised { .. } => b"exception_from",
        Event::Spawn { .. } => b"spawn",
        Event::Spawned { .. } => b"spawned",
        Event::Exited { .. } => b"exit",
        Event::Linked { .. } => b"link",
        Event::Unlinked { .. } => b"unlink",
        Event::GettingLinked { .. } => b"getting_linked",
        Event::GettingUnlinked { .. } => b"getting_unlinked",
    }
}

/// Appends what comes after the kind, each with a comma before it.
fn put_details<A: Allocator, B: Allocator>(
    event: &Event<A>,
    short: bool,
    out: &mut Vec<u8, B>,
) -> Result<(), AllocError>
    ensures ok { OnOk result (out.new.items ≡ out.old.items ++ details_text short (event_of event.now)) }
    ensures grows { Grows out.old.items out.new.items }
{
    match event {
        Event::Sent { message, to, .. } => {
            put_more(message.term(), out)?;
            put_pid(*to, out)?;
        }
        Event::Received { message, .. } => put_more(message.term(), out)?,
        Event::Called { call, .. } => {
            if short {
                put_arity(&call.mfa, out)?;
            } else {
                put_args(&call.mfa, &call.args, out)?;
            }
        }
        Event::Returned { mfa, value, .. } => {
            put_arity(mfa, out)?;
            put_more(value.term(), out)?;
        }
        Event::Raised {
            mfa,
            class,
            value,
            ..
        } => {
            put_arity(mfa, out)?;
            put_exception(*class, value.term(), out)?;
        }
        Event::Spawn {
            child,
            mfa,
            args,
            ..
        } => {
            put_pid(*child, out)?;
            put_args(mfa, args, out)?;
        }
        Event::Spawned {
            parent,
            mfa,
            args,
            ..
        } => {
            put_pid(*parent, out)?;
            put_args(mfa, args, out)?;
        }
        Event::Exited { reason, .. } => put_more(reason, out)?,
        Event::Linked { other, .. }
        | Event::Unlinked { other, .. }
        | Event::GettingLinked { other, .. }
        | Event::GettingUnlinked { other, .. } => put_pid(*other, out)?,
    }
    Ok(())
}

/// Appends a comma and the last value, where there is one.
pub(crate) fn put_last<A: Allocator, B: Allocator>(
    last: Option<Value<'_, A>>,
    out: &mut Vec<u8, B>,
) -> Result<(), AllocError>
    ensures ok { OnOk result (out.new.items ≡ out.old.items ++ each_after_comma (of_elements (last_seen last.entry))) }
    ensures grows { Grows out.old.items out.new.items }
{
    if let Some(value) = last {
        out.push(b',')?;
        write_value(value, out)?;
    }
    Ok(())
}

/// Appends a comma and the term.
fn put_more<A: Allocator, B: Allocator>(
    term: &Term<A>,
    out: &mut Vec<u8, B>,
) -> Result<(), AllocError>
    ensures ok { OnOk result (out.new.items ≡ out.old.items ++ 44 ∷ w (tree_of term.now)) }
    ensures grows { Grows out.old.items out.new.items }
{
    out.push(b',')?;
    write_term(term, out)?;
    Ok(())
}

/// Appends a comma and the pid.
fn put_pid<B: Allocator>(pid: u32, out: &mut Vec<u8, B>) -> Result<(), AllocError>
    ensures ok { OnOk result (out.new.items ≡ out.old.items ++ 44 ∷ w (pid_tree pid)) }
    ensures grows { Grows out.old.items out.new.items }
{
    out.push(b',')?;
    write_pid(pid, out)?;
    Ok(())
}

/// Appends the number.
fn write_number<B: Allocator>(number: u8, out: &mut Vec<u8, B>) -> Result<(), AllocError>
    ensures ok { OnOk result (out.new.items ≡ out.old.items ++ w (int (pos number))) }
    ensures grows { Grows out.old.items out.new.items }
{
    write_term(&Term::<B>::Int(i64::from(number)), out)?;
    Ok(())
}

/// Appends the list of these arguments.
fn write_list<A: Allocator, B: Allocator>(
    args: &Vec<SharedTerm<A>, A>,
    out: &mut Vec<u8, B>,
) -> Result<(), AllocError>
    ensures ok { OnOk result (out.new.items ≡ out.old.items ++ w (list (of_elements (shared_trees args.now)))) }
    ensures grows { Grows out.old.items out.new.items }
{
    out.push(b'[')?;
    put_joined(args, out)?;
    out.push(b']')?;
    Ok(())
}

/// Appends `,{M,F,`.
fn put_names<A: Allocator, B: Allocator>(
    mfa: &Mfa<A>,
    out: &mut Vec<u8, B>,
) -> Result<(), AllocError>
    ensures ok { OnOk result (out.new.items ≡ out.old.items ++ names_text (mfa_seen mfa.now)) }
    ensures grows { Grows out.old.items out.new.items }
{
    out.extend_from_slice(b",{")?;
    write_atom(&mfa.module, out)?;
    out.push(b',')?;
    write_atom(&mfa.name, out)?;
    out.push(b',')?;
    Ok(())
}

/// Appends `,{M,F,Arity}`.
fn put_arity<A: Allocator, B: Allocator>(
    mfa: &Mfa<A>,
    out: &mut Vec<u8, B>,
) -> Result<(), AllocError>
    ensures ok { OnOk result (out.new.items ≡ out.old.items ++ 44 ∷ w (mfa_term (mfa_seen mfa.now))) }
    ensures grows { Grows out.old.items out.new.items }
{
    put_names(mfa, out)?;
    write_number(mfa.arity, out)?;
    out.push(b'}')?;
    Ok(())
}

/// Appends `,{M,F,Args}`.
fn put_args<A: Allocator, B: Allocator>(
    mfa: &Mfa<A>,
    args: &Vec<SharedTerm<A>, A>,
    out: &mut Vec<u8, B>,
) -> Result<(), AllocError>
    ensures ok { OnOk result (out.new.items ≡ out.old.items ++ 44 ∷ w (call_tree mfa.now args.now)) }
    ensures grows { Grows out.old.items out.new.items }
{
    put_names(mfa, out)?;
    write_list(args, out)?;
    out.push(b'}')?;
    Ok(())
}

/// Appends `,{Class,Value}`.
fn put_exception<A: Allocator, B: Allocator>(
    class: Class,
    value: &Term<A>,
    out: &mut Vec<u8, B>,
) -> Result<(), AllocError>
    ensures ok { OnOk result (out.new.items ≡ out.old.items ++ 44 ∷ w (exception_tree class value.now)) }
    ensures grows { Grows out.old.items out.new.items }
{
    out.extend_from_slice(b",{")?;
    out.extend_from_slice(class_text(class))?;
    put_more(value, out)?;
    out.push(b'}')?;
    Ok(())
}

/// The written text of a class.
#[tactic(auto, unfolding(def_term::specs::Text::is_written_bare))]
fn class_text(class: Class) -> &'static [u8]
    ensures { result.now ≡ w (class_term (class_of class)) }
{
    match class {
        Class::Error => b"error",
        Class::Throw => b"throw",
        Class::Exit => b"exit",
    }
}

/// Appends the texts of arguments, with a comma between any two.
fn put_joined<A: Allocator, B: Allocator>(
    args: &Vec<SharedTerm<A>, A>,
    out: &mut Vec<u8, B>,
) -> Result<(), AllocError>
    ensures ok { OnOk result (out.new.items ≡ out.old.items ++ comma_list (of_elements (shared_trees args.now))) }
    ensures grows { Grows out.old.items out.new.items }
{
    if args.is_empty() {
        return Ok(());
    }
    write_term(args[0].term(), out)?;
    for i in 1..args.len() {
        put_more(args[i].term(), out)?;
    }
    Ok(())
}
