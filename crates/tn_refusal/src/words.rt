// The words of the rules.
ghost use Rattle.std.specs.Prelude.{◌≡◌};
ghost use Rattle.tn_refusal.specs.Refusals.{refusal_of};
ghost use Rattle.tn_refusal.specs.Words.{words};

use crate::refusal::Refusal;

/// The words of the refusal's rule, with the rule's limit.
pub fn words_of(refusal: Refusal) -> &'static [u8]
    ensures { result.now ≡ words (refusal_of refusal) }
{
    match refusal {
        Refusal::TooLong => b"a script has at most 1048576 bytes",
        Refusal::Token { .. } => b"syntax error",
        Refusal::TooDeep { .. } => b"terms nest at most 32 levels deep",
        Refusal::TooLarge { .. } => {
            b"integers have 64 bits, atoms 255 characters, tuples 255 elements, lists 4096"
        }
        Refusal::Form { .. } => b"no form has this shape",
        Refusal::TooManyForms => b"a script has at most 256 forms",
        Refusal::Duplicate { .. } => b"declared twice",
        Refusal::Undeclared { .. } => b"not declared",
        Refusal::NotExported { .. } => b"not exported",
        Refusal::Unbound { .. } => b"variable not bound",
        Refusal::TracerTaken { .. } => b"tracer taken",
        Refusal::Arity { .. } => b"wrong number of arguments",
        Refusal::Limit { .. } => {
            b"at most 64 functions, 64 steps in each, 16 processes, 256 commands, 128 sessions"
        }
        Refusal::BadPicks => b"picks are numbers up to 4294967295 with one space between each two",
    }
}
