// The lines of a test in the words of a fun, up to the message.
ghost use Rattle.std.specs.Prelude.{◌≡◌, ◌++◌, OnOk, map, flat_map, slice_get};
ghost use Rattle.std.specs.Option.{option_map};
ghost use Rattle.def_fun_words.specs.WordTexts.{line_in, failed_line, fired_clause_line, bound_line};
ghost use Rattle.tn_guard.specs.Views.{value_seen};
ghost use Rattle.tn_head.specs.Views.{binding_seen, bindings_seen};
ghost use Rattle.tn_action.specs.Views.{effect_seen};
ghost use Rattle.tn_verdict.specs.Views.{reason_seen};
ghost use Rattle.tn_fun_words.specs.Views.{clause_words_seen, fun_words_seen, name_list_seen};
ghost use Rattle.tn_fun_words.specs.FrontLines.{named_line, fired_lines_text, test_front_text_in};

use crate::fun_words::FunWords;
use crate::numbers::{numbered_names, put_clause_number, put_name};
use crate::reason::put_reason_in_words;
use crate::words::ClauseWords;
use bumpalo::Bump;
use std::alloc::{AllocError, Allocator};
use tn_action::{Context, Effect};
use tn_guard::{Value, write_value};
use tn_head::{Binding, Bindings};
use tn_spec::Spec;
use tn_verdict::{Reason, Verdict, put_effects, verdict};

/// Appends the line of a binding.
fn put_binding<A: Allocator, B: Allocator>(
    names: &Vec<Vec<u8, A>, A>,
    number: u16,
    value: Value<'_, A>,
    out: &mut Vec<u8, B>,
) -> Result<(), AllocError>
    ensures { OnOk result (out.new.items
        ≡ out.old.items ++ named_line (name_list_seen names.now.items) (number, value_seen value.entry)) }
{
    out.extend_from_slice(b"  ")?;
    put_name(names, number, out)?;
    out.extend_from_slice(b" is ")?;
    write_value(value, out)?;
    Ok(out.push(b'\n')?)
}

/// Appends the line of each of the bindings.
fn put_each<A: Allocator, B: Allocator>(
    names: &Vec<Vec<u8, A>, A>,
    bindings: &[Binding<'_, A>],
    out: &mut Vec<u8, B>,
) -> Result<(), AllocError>
    ensures { OnOk result (out.new.items ≡ out.old.items
        ++ flat_map (named_line (name_list_seen names.now.items)) (map binding_seen bindings.now)) }
{
    for binding in bindings {
        put_binding(names, binding.number, binding.value, out)?;
    }
    Ok(())
}

/// Appends the line of each binding, by rising number.
fn put_bindings<'a, A: Allocator, D: Allocator, B: Allocator>(
    names: &Vec<Vec<u8, A>, A>,
    bindings: &Bindings<'a, A, D>,
    out: &mut Vec<u8, B>,
) -> Result<(), AllocError>
    ensures { OnOk result (out.new.items ≡ out.old.items
        ++ flat_map (named_line (name_list_seen names.now.items)) (bindings_seen bindings.now)) }
{
    match bindings {
        Bindings::Whole(number, list) => put_binding(names, *number, list.list(), out),
        Bindings::Each(bindings) => put_each(names, bindings.as_slice(), out),
    }
}

/// Appends that the clause fires, and what its body asks for.
fn put_fires<A: Allocator, B: Allocator>(
    words: Option<ClauseWords<'_, '_, A>>,
    before: usize,
    effects: &[Effect<'_, A>],
    out: &mut Vec<u8, B>,
) -> Result<(), AllocError>
    ensures { OnOk result (out.new.items ≡ out.old.items ++ line_in (option_map clause_words_seen words.entry)
        (fired_clause_line before (map effect_seen effects.now))) }
{
    put_clause_number(words, before, out)?;
    out.extend_from_slice(b" fires")?;
    put_effects(effects, out)?;
    Ok(out.push(b'\n')?)
}

/// Appends the lines of a clause that fires, up to the message.
fn put_fired<A: Allocator + Copy, D: Allocator, B: Allocator>(
    alloc: A,
    words: Option<ClauseWords<'_, '_, A>>,
    before: usize,
    bindings: &Bindings<'_, A, D>,
    effects: &[Effect<'_, A>],
    out: &mut Vec<u8, B>,
) -> Result<(), AllocError>
    ensures { OnOk result (out.new.items ≡ out.old.items ++ fired_lines_text (option_map clause_words_seen words.entry)
        before (bindings_seen bindings.now) (map effect_seen effects.now)) }
{
    let names = numbered_names(alloc, words)?;
    put_fires(words, before, effects, out)?;
    put_bindings(&names, bindings, out)
}

/// Appends the line of a clause that doesn't fire.
fn put_failed<A: Allocator + Copy, B: Allocator>(
    alloc: A,
    words: Option<ClauseWords<'_, '_, A>>,
    before: usize,
    reason: Reason<'_, A>,
    out: &mut Vec<u8, B>,
) -> Result<(), AllocError>
    ensures { OnOk result (out.new.items ≡ out.old.items
        ++ line_in (option_map clause_words_seen words.entry) (failed_line before (reason_seen reason.entry))) }
{
    put_clause_number(words, before, out)?;
    out.extend_from_slice(b": ")?;
    put_reason_in_words(alloc, words, reason, out)?;
    Ok(out.push(b'\n')?)
}

/// The words of a fun for a clause, where there is a fun.
fn words_for<'a, 'f, A: Allocator + Copy>(
    fun: Option<&'a FunWords<'f, A>>,
    index: usize,
) -> Option<ClauseWords<'a, 'f, A>>
    ensures { option_map clause_words_seen result ≡ slice_get (fun_words_seen fun.entry) index }
{
    match fun {
        Some(fun) => fun.clause_words(index),
        None => None,
    }
}

/// Appends the lines of the clauses of a specification in a context, up to the message of the first that fires, in the
/// words of a fun where there is one.
pub fn put_front<'a, 'c, A: Allocator + Copy>(
    alloc: A,
    arena: &'a Bump<A>,
    spec: &'a Spec<A>,
    context: &'c Context<'a, 'c, A>,
    fun: Option<&FunWords<'_, A>>,
    out: &mut Vec<u8, A>,
) -> Result<(), AllocError>
    ensures { OnOk result (out.new.items ≡ out.old.items
        ++ test_front_text_in (fun_words_seen fun.entry) spec.now context.now) }
{
    let clauses = &spec.clauses;
    for i in 0..clauses.len() {
        let clause = &clauses[i];
        let words = words_for(fun, i);
        match verdict(alloc, arena, spec.dialect, clause, context)? {
            Verdict::Fails(reason) => put_failed(alloc, words, i, reason, out)?,
            Verdict::Fires { bindings, effects } => {
                return put_fired(alloc, words, i, bindings, &effects, out);
            }
        }
    }
    Ok(())
}
