// The words for clauses, conditions and variables.
ghost use Rattle.std.specs.Prelude.{◌≡◌, ◌++◌, ◌∷◌, ℕ, suc, OnOk, IfOk, codes, decimal, slice_get};
ghost use Rattle.std.specs.Option.{option_map};
ghost use Rattle.def_term.specs.Text.{atom_text};
ghost use Rattle.def_text.specs.Places.{place_at};
ghost use Rattle.def_fun_words.specs.WordTexts.{place_words, line_part_text, clause_after, condition_after, numbered};
ghost use Rattle.def_fun_words.specs.WordTexts.{condition_words, variable_named, variable_words, name_numbered};
ghost use Rattle.tn_fun_words.specs.Views.{condition_texts, clause_words_seen, name_list_seen};

use crate::condition::put_condition;
use crate::fun_words::FunWords;
use crate::names::{Names, names_of};
use crate::words::ClauseWords;
use std::alloc::{AllocError, Allocator};
use tn_fun::Expr;
use tn_refusal::line_column_of;
use tn_text::{write_decimal, write_next};
use tn_verdict::put_clause;

/// The line of an offset.
fn line_of(bytes: &[u8], at: usize) -> usize
    ensures { result ≡ (place_at bytes.now at).line }
{
    line_column_of(bytes, at).line
}

/// Appends the line of the fun's clause, where there are words.
fn put_line<A: Allocator, B: Allocator>(
    words: Option<ClauseWords<'_, '_, A>>,
    out: &mut Vec<u8, B>,
) -> Result<(), AllocError>
    ensures { OnOk result (out.new.items ≡ out.old.items ++ place_words (option_map clause_words_seen words.entry)) }
{
    let Some(words) = words else {
        return Ok(());
    };
    out.extend_from_slice(b" (line ")?;
    write_decimal(line_of(words.fun.bytes, words.clause.at), out)?;
    Ok(out.push(b')')?)
}

/// Appends the number of the clause after so many, and its line in the fun.
pub fn put_clause_number<A: Allocator, B: Allocator>(
    words: Option<ClauseWords<'_, '_, A>>,
    before: usize,
    out: &mut Vec<u8, B>,
) -> Result<(), AllocError>
    ensures { OnOk result (out.new.items
        ≡ out.old.items ++ line_part_text (option_map clause_words_seen words.entry) (clause_after before)) }
{
    put_clause(before, out)?;
    put_line(words, out)
}

/// Appends the number of the condition after so many.
pub fn put_plain_condition<B: Allocator>(
    before: usize,
    out: &mut Vec<u8, B>,
) -> Result<(), AllocError>
    ensures { OnOk result (out.new.items ≡ out.old.items ++ (codes "condition " ++ decimal (suc before))) }
{
    out.extend_from_slice(b"condition ")?;
    write_next(before, out)
}

/// Appends the text of the one of these conditions of a fun that is after so many, or its number where there is none.
fn put_condition_of<A: Allocator, B: Allocator>(
    fun: &FunWords<'_, A>,
    conditions: &[Expr<A>],
    before: usize,
    out: &mut Vec<u8, B>,
) -> Result<(), AllocError>
    ensures { OnOk result (out.new.items ≡ out.old.items ++ condition_words
        (slice_get (condition_texts fun.now.bytes.now conditions.now) before) before) }
{
    if before >= conditions.len() {
        return put_plain_condition(before, out);
    }
    out.extend_from_slice(b"guard ")?;
    put_condition(fun.bytes, &fun.tokens, &conditions[before], out)
}

/// Appends the text of the condition after so many, or its number where the words have none.
pub fn put_condition_words<A: Allocator, B: Allocator>(
    words: Option<ClauseWords<'_, '_, A>>,
    before: usize,
    out: &mut Vec<u8, B>,
) -> Result<(), AllocError>
    ensures { OnOk result (out.new.items
        ≡ out.old.items ++ line_part_text (option_map clause_words_seen words.entry) (condition_after before)) }
{
    match words {
        Some(words) => put_condition_of(words.fun, words.conditions, before, out),
        None => put_plain_condition(before, out),
    }
}

/// The names of the variables, in the order of their numbers; none where there are no words.
pub fn numbered_names<A: Allocator + Copy>(
    alloc: A,
    words: Option<ClauseWords<'_, '_, A>>,
) -> Result<Vec<Vec<u8, A>, A>, AllocError>
    ensures { IfOk result (λ v. (k : ℕ)
        → name_numbered (name_list_seen v.items) k ≡ variable_named (option_map clause_words_seen words.entry) k) }
{
    match words {
        Some(words) => {
            let names = names_of(alloc, words.fun.bytes, &words.clause.head)?;
            let Names {
                whole: _whole,
                numbers,
            } = names;
            Ok(numbers)
        }
        None => Ok(Vec::new(alloc)),
    }
}

/// Appends `'$N'`.
fn put_variable<B: Allocator>(number: u16, out: &mut Vec<u8, B>) -> Result<(), AllocError>
    ensures { OnOk result (out.new.items ≡ out.old.items ++ atom_text (36 ∷ decimal number)) }
{
    out.extend_from_slice(b"'$")?;
    write_decimal(number, out)?;
    out.push(b'\'')?;
    Ok(())
}

/// Appends the name of that number, or the variable of the specification where there is none.
pub fn put_name<A: Allocator, B: Allocator>(
    names: &Vec<Vec<u8, A>, A>,
    number: u16,
    out: &mut Vec<u8, B>,
) -> Result<(), AllocError>
    ensures { OnOk result (out.new.items ≡ out.old.items
        ++ variable_words (name_numbered (name_list_seen names.now.items) number) number) }
{
    let count = usize::from(number);
    if count == 0 {
        return put_variable(number, out);
    }
    if count > names.len() {
        return put_variable(number, out);
    }
    out.extend_from_slice(names[count - 1].as_slice())
}
