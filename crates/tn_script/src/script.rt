// The forms of a script, from its text.
ghost use Rattle.std.specs.Prelude.{map};
ghost use Rattle.tn_term.specs.Views.{tree_of};
ghost use Rattle.tn_script.specs.Answers.{AreFormsOf, AreForms};

use crate::fault::{ScriptFault, of_text_fault};
use crate::form::Form;
use crate::shapes::form_of_term;
use std::alloc::Allocator;
use tn_term::Term;
use tn_text::read_terms;

/// The greatest number of forms.
const FORMS: usize = 256;

/// The forms that the terms stand for.
fn forms_of_terms<A: Allocator + Copy>(
    alloc: A,
    terms: Vec<Term<A>, A>,
) -> Result<Vec<Form<A>, A>, ScriptFault>
    ensures { AreFormsOf (map tree_of terms.items) result }
{
    if terms.len() > FORMS {
        return Err(ScriptFault::TooManyForms);
    }
    let mut forms = Vec::new(alloc);
    for term in terms {
        let Ok(form) = form_of_term(alloc, term) else {
            return Err(ScriptFault::OutOfMemory);
        };
        let Some(form) = form else {
            return Err(ScriptFault::Form {
                form: forms.len() + 1,
            });
        };
        let Ok(()) = forms.push(form) else {
            return Err(ScriptFault::OutOfMemory);
        };
    }
    Ok(forms)
}

/// The forms that the text spells, at most 256. A refusal is the first that applies of 1; 2 to 4, over
/// the whole text; 6; 5, of the lowest-numbered form that has no shape. Memory that runs out is
/// `OutOfMemory` and says nothing of the text.
pub fn forms<A: Allocator + Copy>(alloc: A, bytes: &[u8]) -> Result<Vec<Form<A>, A>, ScriptFault>
    ensures { AreForms bytes.now result }
{
    match read_terms(alloc, bytes) {
        Ok(terms) => forms_of_terms(alloc, terms),
        Err(fault) => Err(of_text_fault(fault)),
    }
}
