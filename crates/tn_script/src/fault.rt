// Why a text gives no forms.
ghost use Rattle.std.specs.Prelude.{◌≡◌};
ghost use Rattle.tn_script.specs.Answers.{of_text};

use thiserror::Error;
use tn_text::TextFault;

/// Why a script's text is refused (own). A place is an offset in bytes, from 0; forms are counted from 1.
#[derive(Clone, Copy, Debug, PartialEq, Eq, Drop, Error)]
pub enum ScriptFault {
    /// Refusal 1: the text has more than 1,048,576 bytes.
    #[error("the script is too long")]
    TooLong,
    /// Refusal 2: the tokens up to this one begin no script, or no token stands there.
    #[error("no script goes on so at {at}")]
    Token { at: usize },
    /// Refusal 3: this token would nest deeper than 32 levels.
    #[error("too deep at {at}")]
    TooDeep { at: usize },
    /// Refusal 4: this token passes another limit on terms.
    #[error("too large at {at}")]
    TooLarge { at: usize },
    /// Refusal 5: the first form that has no shape.
    #[error("form {form} has no shape")]
    Form { form: usize },
    /// Refusal 6: there are more than 256 forms.
    #[error("too many forms")]
    TooManyForms,
    /// The allocator refused memory. It says nothing of the text.
    #[error("out of memory")]
    OutOfMemory,
}

/// The same refusal of a script.
pub fn of_text_fault(fault: TextFault) -> ScriptFault
    ensures { result ≡ of_text fault }
{
    match fault {
        TextFault::TooLong => ScriptFault::TooLong,
        TextFault::Token { at } => ScriptFault::Token { at },
        TextFault::TooDeep { at } => ScriptFault::TooDeep { at },
        TextFault::TooLarge { at } => ScriptFault::TooLarge { at },
        TextFault::OutOfMemory => ScriptFault::OutOfMemory,
    }
}
