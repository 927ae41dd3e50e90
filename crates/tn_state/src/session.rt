// The sessions of a run.
ghost use Rattle.std.specs.Prelude.{◌≡◌, ◌∷◌, ◌++◌, [], OnOk};
ghost use Rattle.std.specs.Option.{option_map};
ghost use Rattle.def_run.specs.Listing.{header_line};
ghost use Rattle.def_script.specs.Exports.{exports_of};
ghost use Rattle.def_state.specs.Lines.{terms_line};
ghost use Rattle.def_state.specs.SettingTerms.{after_creation};
ghost use Rattle.def_state.specs.SessionTexts.{live_text, text_in_phase};
ghost use Rattle.def_state.specs.States.{asks_for};
ghost use Rattle.def_term.specs.Names.{word};
ghost use Rattle.tn_program.specs.Views.{program_of};
ghost use Rattle.tn_session.specs.Looks.{look_seen};
ghost use Rattle.tn_state.specs.Commands.{own_commands};
ghost use Rattle.tn_state.specs.Sessions.{HasTaken, PutsAsked, PutsSession, PutsSessions};

use crate::commands::since_creation;
use crate::flags::{put_all_flags, put_new_flags};
use crate::marks::put_all_marks;
use crate::settings::put_settings;
use std::alloc::{AllocError, Allocator};
use tn_flags::Command;
use tn_program::Program;
use tn_session::Look;
use tn_term::Atom;
use tn_text::write_atom;
use tn_trace::{Discard, Slot};

/// Appends the header of a session.
fn put_header<A: Allocator, B: Allocator>(
    name: &Atom<A>,
    tracer: &Atom<A>,
    out: &mut Vec<u8, B>,
) -> Result<(), AllocError>
    ensures { OnOk result (out.new.items ≡ out.old.items ++ header_line name.now tracer.now) }
{
    out.extend_from_slice(b"== session ")?;
    write_atom(name, out)?;
    out.extend_from_slice(b" tracer ")?;
    write_atom(tracer, out)?;
    out.push(b'\n')?;
    Ok(())
}

/// Appends that a session isn't created yet.
#[tactic(auto, unfolding(def_term::specs::Text::is_written_bare))]
fn put_absent<B: Allocator>(out: &mut Vec<u8, B>) -> Result<(), AllocError>
    ensures { OnOk result (out.new.items ≡ out.old.items ++ terms_line (word "absent" ∷ [])) }
{
    out.extend_from_slice(b"absent\n")
}

/// Appends that a session was destroyed.
#[tactic(auto, unfolding(def_term::specs::Text::is_written_bare))]
fn put_destroyed<B: Allocator>(out: &mut Vec<u8, B>) -> Result<(), AllocError>
    ensures { OnOk result (out.new.items ≡ out.old.items ++ terms_line (word "destroyed" ∷ [])) }
{
    out.extend_from_slice(b"destroyed\n")
}

/// Appends that a session is live.
#[tactic(auto, unfolding(def_term::specs::Text::is_written_bare))]
fn put_live_word<B: Allocator>(out: &mut Vec<u8, B>) -> Result<(), AllocError>
    ensures { OnOk result (out.new.items ≡ out.old.items ++ terms_line (word "live" ∷ [])) }
{
    out.extend_from_slice(b"live\n")
}

/// Appends the lines of a live session, to which these commands were given.
fn put_live<A: Allocator + Copy>(
    alloc: A,
    program: &Program<A>,
    commands: &[Command<A>],
    name: &Atom<A>,
    look: &Look<'_, A>,
    out: &mut Vec<u8, A>,
) -> Result<(), AllocError>
    ensures { OnOk result (out.new.items ≡ out.old.items ++
        live_text (exports_of (program_of program.now)) (look_seen look.now) (own_commands name.now commands.now)) }
{
    put_live_word(out)?;
    put_all_flags(alloc, look, out)?;
    put_new_flags(alloc, look, out)?;
    put_settings(alloc, commands, name, program.functions(), out)?;
    put_all_marks(alloc, look, out)
}

/// Appends the lines of a session that was created, to which these commands were given.
fn put_created<A: Allocator + Copy>(
    alloc: A,
    program: &Program<A>,
    commands: &[Command<A>],
    name: &Atom<A>,
    look: &Look<'_, A>,
    out: &mut Vec<u8, A>,
) -> Result<(), AllocError>
    ensures { let s = look_seen look.now in OnOk result (out.new.items ≡ out.old.items ++ text_in_phase s.phase
        (exports_of (program_of program.now)) s (after_creation (own_commands name.now commands.now))) }
{
    if !look.is_live() {
        return put_destroyed(out);
    }
    let later = since_creation(commands, name);
    put_live(alloc, program, later, name, look, out)
}

/// A program's run, of which so many commands were taken, and the session alone that is asked for, where one is.
#[derive(Drop)]
pub(crate) struct SessionContext<'a, A: Allocator> {
    pub alloc: A,
    pub program: &'a Program<A>,
    pub taken: usize,
    pub asked: Option<&'a str>,
}

/// Appends the text of a session.
fn put_session<A: Allocator + Copy>(
    context: &SessionContext<'_, A>,
    slot: &Slot<A, Discard>,
    tracer: &Atom<A>,
    out: &mut Vec<u8, A>,
) -> Result<(), AllocError>
    requires { HasTaken context.now }
    ensures { PutsSession context.now (slot.now.name, tracer.now) slot.now out.old.items out.new.items result }
{
    put_header(&slot.name, tracer, out)?;
    let Some(session) = &slot.session else {
        return put_absent(out);
    };
    let Some(look) = session.look() else {
        return Err(AllocError);
    };
    let commands = &context.program.commands()[..context.taken];
    put_created(
        context.alloc,
        context.program,
        commands,
        &slot.name,
        &look,
        out,
    )
}

/// Whether the session of this name is asked for.
fn asks_for<A: Allocator>(asked: Option<&str>, name: &Atom<A>) -> bool
    ensures { result ≡ asks_for (option_map (λ s. s.now) asked.entry) name.now }
{
    match asked {
        Some(text) => text == name.text(),
        None => true,
    }
}

/// Appends the text of a session, where it is asked for.
fn put_asked<A: Allocator + Copy>(
    context: &SessionContext<'_, A>,
    slot: &Slot<A, Discard>,
    tracer: &Atom<A>,
    out: &mut Vec<u8, A>,
) -> Result<(), AllocError>
    requires { HasTaken context.now }
    ensures { PutsAsked context.now (slot.now.name, tracer.now) slot.now out.old.items out.new.items result }
{
    if asks_for(context.asked, &slot.name) {
        put_session(context, slot, tracer, out)
    } else {
        Ok(())
    }
}

/// Appends the text of each session that is asked for.
pub(crate) fn put_sessions<A: Allocator + Copy>(
    context: &SessionContext<'_, A>,
    slots: &[Slot<A, Discard>],
    out: &mut Vec<u8, A>,
) -> Result<(), AllocError>
    requires { HasTaken context.now }
    ensures { PutsSessions context.now slots.now out.old.items out.new.items result }
{
    for place in 0..slots.len() {
        let Some(names) = context.program.session_at(place) else {
            return Err(AllocError);
        };
        let slot = &slots[place];
        put_asked(context, slot, names.1, out)?;
    }
    Ok(())
}
