// What breaks a rule, found by looking through the text.
ghost use Rattle.std.specs.Prelude.{[], IfOk, OnOk};
ghost use Rattle.tn_program.specs.Faults.{rule_of};
ghost use Rattle.tn_refusal.specs.Details.{forms_seen, IsFormsOf, HasFormsOfRule, HasFormText, TellsRule, TellsDetail};
ghost use Rattle.tn_refusal.specs.Refusals.{refusal_of, refused_part};
ghost use Rattle.tn_refusal.specs.TextViews.{kind_seen};

use crate::forms::{put_broken, put_form_count, put_shapeless};
use crate::location::Mark;
use crate::picks::put_picks;
use crate::position::TextKind;
use crate::put::put_number;
use crate::refusal::Refusal;
use crate::syntax::{TokenFault, put_token};
use std::alloc::{AllocError, Allocator};
use tn_program::Rule;

/// Appends what of the form with this number, from 1, breaks a static rule; nothing where the text spells no forms.
/// After an `Err` a part of it may be there.
fn put_rule<A: Allocator>(
    text: &[u8],
    mark: &Mark<'_, A>,
    rule: Rule,
    form: usize,
    out: &mut Vec<u8, A>,
) -> Result<(), AllocError>
    requires { IsFormsOf text.now (forms_seen mark.now.forms) }
    ensures { OnOk result (TellsRule text.now (rule_of rule) form out.old.items out.new.items) }
{
    match &mark.forms {
        Some(forms) => put_broken(rule, forms, form, out),
        None => Ok(()),
    }
}

/// Appends what breaks the rule, after `: `; nothing where it isn't found. After an `Err` a part of it may be there.
fn put_detail<A: Allocator + Copy>(
    alloc: A,
    text: &[u8],
    mark: &Mark<'_, A>,
    refusal: Refusal,
    kind: TextKind,
    out: &mut Vec<u8, A>,
) -> Result<(), AllocError>
    requires form { HasFormText text.now (refused_part (refusal_of refusal)) mark.now.form.now }
    requires forms { HasFormsOfRule text.now (refusal_of refusal) (forms_seen mark.now.forms) }
    ensures { OnOk result (TellsDetail (refusal_of refusal) text.now (kind_seen kind) out.old.items out.new.items) }
{
    match refusal {
        Refusal::TooLong => put_number(b": there are ", text.len(), out),
        Refusal::Token { at } => put_token(alloc, text, TokenFault::Misplaced, at, kind, out),
        Refusal::TooDeep { at } => put_token(alloc, text, TokenFault::Deep, at, kind, out),
        Refusal::TooLarge { at } => put_token(alloc, text, TokenFault::Large, at, kind, out),
        Refusal::Form { .. } => put_shapeless(alloc, mark.form, out),
        Refusal::TooManyForms => put_form_count(alloc, text, out),
        Refusal::Duplicate { form } => put_rule(text, mark, Rule::Duplicate, form, out),
        Refusal::Undeclared { form } => put_rule(text, mark, Rule::Undeclared, form, out),
        Refusal::NotExported { form } => put_rule(text, mark, Rule::NotExported, form, out),
        Refusal::Unbound { form } => put_rule(text, mark, Rule::Unbound, form, out),
        Refusal::TracerTaken { form } => put_rule(text, mark, Rule::TracerTaken, form, out),
        Refusal::Arity { form } => put_rule(text, mark, Rule::Arity, form, out),
        Refusal::Limit { form } => put_rule(text, mark, Rule::Limit, form, out),
        Refusal::BadPicks => put_picks(text, out),
    }
}

/// What breaks the rule, after `: `; nothing where the text isn't refused so. The place of the refusal is given too,
/// with what was read for it.
pub fn detail_of<A: Allocator + Copy>(
    alloc: A,
    text: &[u8],
    mark: &Mark<'_, A>,
    refusal: Refusal,
    kind: TextKind,
) -> Result<Vec<u8, A>, AllocError>
    requires form { HasFormText text.now (refused_part (refusal_of refusal)) mark.now.form.now }
    requires forms { HasFormsOfRule text.now (refusal_of refusal) (forms_seen mark.now.forms) }
    ensures { IfOk result (λ v. TellsDetail (refusal_of refusal) text.now (kind_seen kind) [] v.items) }
{
    let mut out = Vec::new(alloc);
    put_detail(alloc, text, mark, refusal, kind, &mut out)?;
    Ok(out)
}
