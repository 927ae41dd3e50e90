// Why a text is refused.
ghost use Rattle.std.specs.Prelude.{◌≡◌};
ghost use Rattle.tn_refusal.specs.Refusals.{denial_of_script, denial_of_rules, refusal_of, refused_part};

use tn_program::RuleFault;
use tn_script::ScriptFault;

/// Why a script or a text of picks is refused (own); the numbers are those of the refusals' lines. A
/// place is an offset in bytes, from 0; forms are counted from 1.
#[derive(Clone, Copy, Debug, PartialEq, Eq, Drop)]
pub enum Refusal {
    /// 1: the script has more than 1,048,576 bytes.
    TooLong,
    /// 2: the tokens up to this one begin no script, or no token stands there.
    Token { at: usize },
    /// 3: this token would nest deeper than 32 levels.
    TooDeep { at: usize },
    /// 4: this token passes another limit on terms.
    TooLarge { at: usize },
    /// 5: the first form that has no shape.
    Form { form: usize },
    /// 6: there are more than 256 forms.
    TooManyForms,
    /// 7: it declares a function, or creates a session, that an earlier one does.
    Duplicate { form: usize },
    /// 8: it names a function that no form declares, or a session that no earlier command creates.
    Undeclared { form: usize },
    /// 9: it spawns, starts or calls with the module an internal function.
    NotExported { form: usize },
    /// 10: a variable stands where it is not bound.
    Unbound { form: usize },
    /// 11: it creates a session with a tracer that an earlier creation has.
    TracerTaken { form: usize },
    /// 12: it names a function that is declared, but not with that number of arguments.
    Arity { form: usize },
    /// 13: it goes past a limit on functions, steps, initial processes, commands or sessions.
    Limit { form: usize },
    /// 20: the text of picks spells none.
    BadPicks,
}

/// Why a text isn't run.
#[derive(Clone, Copy, Drop)]
pub enum Denial {
    /// Its refusal.
    Refused(Refusal),
    /// The allocator refused memory. It says nothing of the text.
    OutOfMemory,
}

/// The part of a text that a refusal is of.
#[derive(Clone, Copy)]
pub enum RefusedPart {
    /// All of it.
    Whole,
    /// The token at this offset in bytes, from 0, or the text's end.
    Token { at: usize },
    /// The form with this number, from 1.
    Form { form: usize },
}

/// The part that the refusal is of.
pub fn refusal_part(refusal: Refusal) -> RefusedPart
    ensures { result ≡ refused_part (refusal_of refusal) }
{
    match refusal {
        Refusal::TooLong => RefusedPart::Whole,
        Refusal::Token { at } => RefusedPart::Token { at },
        Refusal::TooDeep { at } => RefusedPart::Token { at },
        Refusal::TooLarge { at } => RefusedPart::Token { at },
        Refusal::Form { form } => RefusedPart::Form { form },
        Refusal::TooManyForms => RefusedPart::Whole,
        Refusal::Duplicate { form } => RefusedPart::Form { form },
        Refusal::Undeclared { form } => RefusedPart::Form { form },
        Refusal::NotExported { form } => RefusedPart::Form { form },
        Refusal::Unbound { form } => RefusedPart::Form { form },
        Refusal::TracerTaken { form } => RefusedPart::Form { form },
        Refusal::Arity { form } => RefusedPart::Form { form },
        Refusal::Limit { form } => RefusedPart::Form { form },
        Refusal::BadPicks => RefusedPart::Whole,
    }
}

/// The denial for a fault of the reading of forms.
pub fn denial_of_script(fault: ScriptFault) -> Denial
    ensures { result ≡ denial_of_script fault }
{
    match fault {
        ScriptFault::TooLong => Denial::Refused(Refusal::TooLong),
        ScriptFault::Token { at } => Denial::Refused(Refusal::Token { at }),
        ScriptFault::TooDeep { at } => Denial::Refused(Refusal::TooDeep { at }),
        ScriptFault::TooLarge { at } => Denial::Refused(Refusal::TooLarge { at }),
        ScriptFault::Form { form } => Denial::Refused(Refusal::Form { form }),
        ScriptFault::TooManyForms => Denial::Refused(Refusal::TooManyForms),
        ScriptFault::OutOfMemory => Denial::OutOfMemory,
    }
}

/// The denial for a fault of the rules on forms.
pub fn denial_of_rules(fault: RuleFault) -> Denial
    ensures { result ≡ denial_of_rules fault }
{
    match fault {
        RuleFault::Duplicate { form } => Denial::Refused(Refusal::Duplicate { form }),
        RuleFault::Undeclared { form } => Denial::Refused(Refusal::Undeclared { form }),
        RuleFault::NotExported { form } => Denial::Refused(Refusal::NotExported { form }),
        RuleFault::Unbound { form } => Denial::Refused(Refusal::Unbound { form }),
        RuleFault::TracerTaken { form } => Denial::Refused(Refusal::TracerTaken { form }),
        RuleFault::Arity { form } => Denial::Refused(Refusal::Arity { form }),
        RuleFault::Limit { form } => Denial::Refused(Refusal::Limit { form }),
        RuleFault::OutOfMemory => Denial::OutOfMemory,
    }
}
