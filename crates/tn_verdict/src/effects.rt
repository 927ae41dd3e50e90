// The texts of effects.
ghost use Rattle.std.specs.Prelude.{◌≡◌, ◌++◌, ℕ, List, OnOk, map};
ghost use Rattle.def_spec.specs.Expressions.{changes};
ghost use Rattle.def_spec.specs.Flags.{flags_by_name};
ghost use Rattle.def_explain.specs.Texts.{silent_text, effect_text, effects_text, said_of_each};
ghost use Rattle.tn_flags.specs.Views.{flags_of};
ghost use Rattle.tn_action.specs.Views.{effect_seen};
ghost use Rattle.tn_text.specs.Writes.{Grows};
ghost use Rattle.tn_verdict.specs.Effects.{text_where, said_of, next_effect_text};

use std::alloc::{AllocError, Allocator};
use tn_action::Effect;
use tn_flags::Flags;
use tn_guard::write_value;
use tn_text::write_pid;

/// The written names of the flags, and whether each is in the set.
#[tactic(auto, unfolding(def_term::specs::Text::is_written_bare))]
fn flag_names(flags: Flags) -> [(&'static [u8], bool); 10]
    ensures { (verb : List ℕ) → said_of verb result ≡ said_of_each verb (flags_of flags) flags_by_name }
{
    [
        (b"send", flags.send),
        (b"'receive'", flags.receive),
        (b"call", flags.call),
        (b"procs", flags.procs),
        (b"silent", flags.silent),
        (b"arity", flags.arity),
        (b"set_on_spawn", flags.set_on_spawn),
        (b"set_on_first_spawn", flags.set_on_first_spawn),
        (b"set_on_link", flags.set_on_link),
        (b"set_on_first_link", flags.set_on_first_link),
    ]
}

/// Appends a flag after a verb, where it holds.
fn put_flag<B: Allocator>(
    verb: &[u8],
    name: &[u8],
    holds: bool,
    out: &mut Vec<u8, B>,
) -> Result<(), AllocError>
    ensures ok { OnOk result (out.new.items ≡ out.old.items ++ text_where holds verb.now name.now) }
    ensures grows { Grows out.old.items out.new.items }
{
    if !holds {
        return Ok(());
    }
    out.extend_from_slice(verb)?;
    out.extend_from_slice(name)
}

/// Appends each flag of a set after a verb. After an `Err` a part of them may stand there.
pub fn put_flags<B: Allocator>(
    verb: &'static [u8],
    flags: Flags,
    out: &mut Vec<u8, B>,
) -> Result<(), AllocError>
    ensures ok { OnOk result (out.new.items ≡ out.old.items ++ said_of_each verb.now (flags_of flags) flags_by_name) }
    ensures grows { Grows out.old.items out.new.items }
{
    let flags = flag_names(flags);
    for (name, holds) in &flags {
        put_flag(verb, name, *holds, out)?;
    }
    Ok(())
}

/// Appends `silent true` or `silent false`.
fn silent(on: bool) -> &'static [u8]
    ensures { result.now ≡ silent_text on }
{
    if on { b"silent true" } else { b"silent false" }
}

/// Appends the flags that a process loses and gets. After an `Err` a part of it may stand there.
fn put_change<B: Allocator>(
    pid: u32,
    off: Flags,
    on: Flags,
    out: &mut Vec<u8, B>,
) -> Result<(), AllocError>
    ensures ok { OnOk result (out.new.items ≡ out.old.items ++ effect_text (changes pid (flags_of off) (flags_of on))) }
    ensures grows { Grows out.old.items out.new.items }
{
    write_pid(pid, out)?;
    let len = out.len();
    put_flags(b" loses ", off, out)?;
    put_flags(b" gets ", on, out)?;
    if out.len() == len {
        out.extend_from_slice(b" keeps its flags")?;
    }
    Ok(())
}

/// Appends what an effect is.
fn put_effect<A: Allocator, B: Allocator>(
    effect: &Effect<'_, A>,
    out: &mut Vec<u8, B>,
) -> Result<(), AllocError>
    ensures ok { OnOk result (out.new.items ≡ out.old.items ++ effect_text (effect_seen effect.now)) }
    ensures grows { Grows out.old.items out.new.items }
{
    match effect {
        Effect::Message(value) => {
            out.extend_from_slice(b"message ")?;
            write_value(*value, out)
        }
        Effect::ReturnTrace => out.extend_from_slice(b"return_trace"),
        Effect::ExceptionTrace => out.extend_from_slice(b"exception_trace"),
        Effect::Silent(on) => out.extend_from_slice(silent(*on)),
        Effect::Change { pid, off, on } => Ok(put_change(*pid, *off, *on, out)?),
    }
}

/// Appends a comma and what an effect is.
fn put_next_effect<A: Allocator, B: Allocator>(
    effect: &Effect<'_, A>,
    out: &mut Vec<u8, B>,
) -> Result<(), AllocError>
    ensures ok { OnOk result (out.new.items ≡ out.old.items ++ next_effect_text (effect_seen effect.now)) }
    ensures grows { Grows out.old.items out.new.items }
{
    out.extend_from_slice(b", ")?;
    put_effect(effect, out)
}

/// Appends several effects, with a comma between any two, after a colon. After an `Err` a part of it may
/// stand there.
pub fn put_effects<A: Allocator, B: Allocator>(
    effects: &[Effect<'_, A>],
    out: &mut Vec<u8, B>,
) -> Result<(), AllocError>
    ensures ok { OnOk result (out.new.items ≡ out.old.items ++ effects_text (map effect_seen effects.now)) }
    ensures grows { Grows out.old.items out.new.items }
{
    if effects.is_empty() {
        return Ok(());
    }
    out.extend_from_slice(b": ")?;
    put_effect(&effects[0], out)?;
    for i in 1..effects.len() {
        put_next_effect(&effects[i], out)?;
    }
    Ok(())
}
