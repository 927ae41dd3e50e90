// Why forms make no program.
ghost use Rattle.std.specs.Prelude.{◌≡◌};
ghost use Rattle.tn_program.specs.Faults.{rule_fault_of};

use thiserror::Error;

/// The static rules of scripts (own).
#[derive(Clone, Copy)]
pub enum Rule {
    Duplicate,
    Undeclared,
    NotExported,
    Unbound,
    TracerTaken,
    Arity,
    Limit,
}

/// The first rule that the lowest-numbered form breaks that breaks any (own). Forms are counted from 1.
#[derive(Clone, Copy, Debug, PartialEq, Eq, Drop, Error)]
pub enum RuleFault {
    /// Refusal 7: it declares a function, or creates a session, that an earlier one does.
    #[error("duplicate in form {form}")]
    Duplicate { form: usize },
    /// Refusal 8: it names a function that no form declares, or a session that no earlier command creates.
    #[error("undeclared in form {form}")]
    Undeclared { form: usize },
    /// Refusal 9: it spawns, starts or calls with the module an internal function.
    #[error("not exported in form {form}")]
    NotExported { form: usize },
    /// Refusal 10: a variable stands where it is not bound.
    #[error("unbound in form {form}")]
    Unbound { form: usize },
    /// Refusal 11: it creates a session with a tracer that an earlier creation has.
    #[error("tracer taken in form {form}")]
    TracerTaken { form: usize },
    /// Refusal 12: it names a function that is declared, but not with that number of arguments.
    #[error("arity in form {form}")]
    Arity { form: usize },
    /// Refusal 13: it goes past a limit on functions, steps, initial processes, commands or sessions.
    #[error("limit in form {form}")]
    Limit { form: usize },
    /// The allocator refused memory. It says nothing of the forms.
    #[error("out of memory")]
    OutOfMemory,
}

/// The fault of that rule in that form.
pub fn fault_in(rule: Rule, form: usize) -> RuleFault
    ensures { result ≡ rule_fault_of rule form }
{
    match rule {
        Rule::Duplicate => RuleFault::Duplicate { form },
        Rule::Undeclared => RuleFault::Undeclared { form },
        Rule::NotExported => RuleFault::NotExported { form },
        Rule::Unbound => RuleFault::Unbound { form },
        Rule::TracerTaken => RuleFault::TracerTaken { form },
        Rule::Arity => RuleFault::Arity { form },
        Rule::Limit => RuleFault::Limit { form },
    }
}
