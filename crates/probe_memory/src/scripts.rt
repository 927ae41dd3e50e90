// What the layers are inputs, and the program and the core of a script.
ghost use Rattle.std.specs.Prelude.{◌≡◌, [], IfSome};
ghost use Rattle.tn_trace.specs.Cores.{core_of};

use crate::says::or_say;
use std::alloc::Global;
use tn_program::program;
use tn_script::forms;
use tn_trace::Core;

/// What the layers are inputs.
#[derive(Drop)]
pub struct Inputs<'a> {
    pub alloc: Global,
    /// Standard input.
    pub text: &'a [u8],
    /// The second word, and the picks that it spells.
    pub picks_text: &'a str,
    pub picks: &'a [u32],
    /// The third word: the list that a specification is held against, or how many bytes a writer takes.
    pub list: &'a str,
    /// The fourth word: `send` or `receive`; another one is `call`.
    pub dialect: &'a str,
}

/// The core of the script before any pick; why there is none is said.
pub fn core_or_say<R: Print>(rt: &R, inputs: &Inputs<'_>) -> Option<Core<Global>>
    ensures { IfSome result (λ core. core ≡ core_of core.program []) }
{
    let forms = or_say(rt, "forms", forms(inputs.alloc, inputs.text))?;
    let program = or_say(rt, "program", program(inputs.alloc, forms))?;
    or_say(rt, "core", Core::new(inputs.alloc, program))
}
