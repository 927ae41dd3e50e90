// What breaks the rules on forms: refusals 5 to 13.
ghost use Rattle.std.specs.Prelude.{◌≡◌, ◌++◌, [], ◌∷◌, List, length, map, codes, decimal, OnOk};
ghost use Rattle.def_term.specs.Tree.{Tree};
ghost use Rattle.def_text.specs.Scripts.{SpellsTerms};
ghost use Rattle.def_wording.specs.RuleTexts.{function_reason_of, entry_reason, commands_reason, form_reason};
ghost use Rattle.def_wording.specs.RuleTexts.{rule_reason, rule_reason_in, rule_reasons_text};
ghost use Rattle.def_wording.specs.ShapeTexts.{shape_detail};
ghost use Rattle.tn_flags.specs.Views.{command_of};
ghost use Rattle.tn_program.specs.Faults.{rule_of};
ghost use Rattle.tn_script.specs.Views.{entry_of, function_of, form_of};
ghost use Rattle.tn_term.specs.Views.{tree_of};

use crate::callee::{put_again, put_named, put_started};
use crate::limits::put_limit;
use crate::put::put_number;
use crate::sessions::{put_created_again, put_tracer_taken, put_unmade};
use crate::shape_text::put_shape;
use crate::variables::{put_in_function, put_in_process};
use std::alloc::{AllocError, Allocator};
use tn_flags::Command;
use tn_program::Rule;
use tn_script::{Entry, Form, Function};
use tn_term::Term;
use tn_text::{TextFault, read_terms};

/// Appends what of a function breaks a static rule; after an `Err` a part of it may be there.
fn put_function_rule<A: Allocator>(
    rule: Rule,
    forms: &[Form<A>],
    earlier: &[Form<A>],
    function: &Function<A>,
    out: &mut Vec<u8, A>,
) -> Result<(), AllocError>
    ensures { OnOk result (out.new.items ≡ out.old.items ++ rule_reasons_text (function_reason_of
        (map form_of forms.now) (map form_of earlier.now) (function_of function.now) (rule_of rule))) }
{
    match rule {
        Rule::Duplicate => put_again(earlier, function, out),
        Rule::Unbound => put_in_function(function, out),
        Rule::Undeclared => put_named(rule, forms, function, out),
        Rule::NotExported => put_named(rule, forms, function, out),
        Rule::TracerTaken => put_named(rule, forms, function, out),
        Rule::Arity => put_named(rule, forms, function, out),
        Rule::Limit => put_named(rule, forms, function, out),
    }
}

/// Appends what of a process breaks a static rule; after an `Err` a part of it may be there.
fn put_process_rule<A: Allocator>(
    rule: Rule,
    forms: &[Form<A>],
    entry: &Entry<A>,
    out: &mut Vec<u8, A>,
) -> Result<(), AllocError>
    ensures { OnOk result (out.new.items ≡ out.old.items
        ++ rule_reasons_text (entry_reason (map form_of forms.now) (entry_of entry.now) (rule_of rule))) }
{
    match rule {
        Rule::Unbound => put_in_process(entry, out),
        Rule::Duplicate => put_started(rule, forms, entry, out),
        Rule::Undeclared => put_started(rule, forms, entry, out),
        Rule::NotExported => put_started(rule, forms, entry, out),
        Rule::TracerTaken => put_started(rule, forms, entry, out),
        Rule::Arity => put_started(rule, forms, entry, out),
        Rule::Limit => put_started(rule, forms, entry, out),
    }
}

/// Appends what of commands breaks a static rule; after an `Err` a part of it may be there.
fn put_control_rule<A: Allocator>(
    rule: Rule,
    earlier: &[Form<A>],
    commands: &[Command<A>],
    out: &mut Vec<u8, A>,
) -> Result<(), AllocError>
    ensures { OnOk result (out.new.items ≡ out.old.items ++ rule_reasons_text
        (commands_reason (map form_of earlier.now) (map command_of commands.now) (rule_of rule))) }
{
    match rule {
        Rule::Duplicate => put_created_again(earlier, commands, out),
        Rule::TracerTaken => put_tracer_taken(earlier, commands, out),
        Rule::Undeclared => put_unmade(earlier, commands, out),
        Rule::NotExported => Ok(()),
        Rule::Unbound => Ok(()),
        Rule::Arity => Ok(()),
        Rule::Limit => Ok(()),
    }
}

/// Appends what of the form after the earlier ones breaks a static rule other than that on limits; after an `Err` a
/// part of it may be there.
fn put_form_rule<A: Allocator>(
    rule: Rule,
    forms: &[Form<A>],
    earlier: &[Form<A>],
    form: &Form<A>,
    out: &mut Vec<u8, A>,
) -> Result<(), AllocError>
    ensures { OnOk result (out.new.items ≡ out.old.items ++ rule_reasons_text
        (form_reason (map form_of forms.now) (map form_of earlier.now) (form_of form.now) (rule_of rule))) }
{
    match form {
        Form::Function(function) => put_function_rule(rule, forms, earlier, function, out),
        Form::Process(entry) => put_process_rule(rule, forms, entry, out),
        Form::Control(commands) => put_control_rule(rule, earlier, commands, out),
    }
}

/// Appends what of the form after the earlier ones breaks a static rule; after an `Err` a part of it may be there.
fn put_rule<A: Allocator>(
    rule: Rule,
    forms: &[Form<A>],
    earlier: &[Form<A>],
    form: &Form<A>,
    out: &mut Vec<u8, A>,
) -> Result<(), AllocError>
    ensures { OnOk result (out.new.items ≡ out.old.items ++ rule_reasons_text
        (rule_reason (map form_of forms.now) (map form_of earlier.now) (form_of form.now) (rule_of rule))) }
{
    match rule {
        Rule::Limit => put_limit(earlier, form, out),
        Rule::Duplicate => put_form_rule(rule, forms, earlier, form, out),
        Rule::Undeclared => put_form_rule(rule, forms, earlier, form, out),
        Rule::NotExported => put_form_rule(rule, forms, earlier, form, out),
        Rule::Unbound => put_form_rule(rule, forms, earlier, form, out),
        Rule::TracerTaken => put_form_rule(rule, forms, earlier, form, out),
        Rule::Arity => put_form_rule(rule, forms, earlier, form, out),
    }
}

/// Appends what breaks the shape of the first of these terms; after an `Err` a part of it may be there.
fn put_first_shape<A: Allocator>(terms: &[Term<A>], out: &mut Vec<u8, A>) -> Result<(), AllocError>
    ensures { (t : Tree) → map tree_of terms.now ≡ t ∷ []
        → OnOk result (out.new.items ≡ out.old.items ++ shape_detail t) }
{
    if terms.len() == 0 {
        return Ok(());
    }
    put_shape(&terms[0], out)
}

/// Appends what breaks the shape of the form of this text, and nothing where it spells no term; after an `Err` a part
/// of it may be there.
pub fn put_shapeless<A: Allocator + Copy>(
    alloc: A,
    form_text: &[u8],
    out: &mut Vec<u8, A>,
) -> Result<(), AllocError>
    ensures { (t : Tree) → SpellsTerms form_text.now (t ∷ [])
        → OnOk result (out.new.items ≡ out.old.items ++ shape_detail t) }
{
    match read_terms(alloc, form_text) {
        Ok(terms) => put_first_shape(&terms, out),
        Err(TextFault::OutOfMemory) => Err(AllocError),
        Err(TextFault::TooLong) => Ok(()),
        Err(TextFault::Token { .. }) => Ok(()),
        Err(TextFault::TooDeep { .. }) => Ok(()),
        Err(TextFault::TooLarge { .. }) => Ok(()),
    }
}

/// Appends what of the form with this number, from 1, breaks a static rule; nothing where there are fewer forms. After
/// an `Err` a part of it may be there.
pub fn put_broken<A: Allocator>(
    rule: Rule,
    forms: &[Form<A>],
    form: usize,
    out: &mut Vec<u8, A>,
) -> Result<(), AllocError>
    ensures { OnOk result (out.new.items ≡ out.old.items
        ++ rule_reasons_text (rule_reason_in (map form_of forms.now) form (rule_of rule))) }
{
    let index = form.saturating_sub(1);
    if index < forms.len() {
        put_rule(rule, forms, &forms[..index], &forms[index], out)
    } else {
        Ok(())
    }
}

/// Appends how many forms a text spells, where it spells terms; after an `Err` a part of it may be there.
pub fn put_form_count<A: Allocator + Copy>(
    alloc: A,
    text: &[u8],
    out: &mut Vec<u8, A>,
) -> Result<(), AllocError>
    ensures { (ts : List Tree) → SpellsTerms text.now ts
        → OnOk result (out.new.items ≡ out.old.items ++ codes ": there are " ++ decimal (length ts)) }
{
    match read_terms(alloc, text) {
        Ok(terms) => put_number(b": there are ", terms.len(), out),
        Err(TextFault::OutOfMemory) => Err(AllocError),
        Err(TextFault::TooLong) => Ok(()),
        Err(TextFault::Token { .. }) => Ok(()),
        Err(TextFault::TooDeep { .. }) => Ok(()),
        Err(TextFault::TooLarge { .. }) => Ok(()),
    }
}
