// The functions of a program.
ghost use Rattle.std.specs.Prelude.{◌≡◌, ◌<◌, ◌+◌, length, IfOk, IfSome};
ghost use Rattle.def_script.specs.Program.{number_from, mfa_of};
ghost use Rattle.def_term.specs.Names.{same_mfa, mfa_from};
ghost use Rattle.tn_term.specs.Views.{mfa_seen};
ghost use Rattle.tn_script.specs.Views.{function_of, functions_of};

use std::alloc::{AllocError, Allocator};
use tn_script::Function;
use tn_term::Mfa;

/// Whether the function has this name and number of parameters.
pub fn is_named<A: Allocator>(
    function: &Function<A>,
    module_name: &str,
    name: &str,
    arity: usize,
) -> bool
    ensures { result ≡ same_mfa (mfa_of (function_of function.now)) (mfa_from module_name.now name.now arity) }
{
    function.params.len() == arity
        && function.name.text() == name
        && function.module.text() == module_name
}

/// The module, the name and the number of parameters of a function.
pub fn function_mfa<A: Allocator + Copy>(
    alloc: A,
    function: &Function<A>,
) -> Result<Mfa<A>, AllocError>
    ensures { IfOk result (λ m. mfa_seen m ≡ mfa_of (function_of function.now)) }
{
    Ok(Mfa {
        module: function.module.copy_into(alloc)?,
        name: function.name.copy_into(alloc)?,
        arity: function.params.len() as u8,
    })
}

/// The number of the first function of this name and number of parameters.
pub fn find_function<A: Allocator>(
    functions: &[Function<A>],
    module_name: &str,
    name: &str,
    arity: usize,
) -> Option<usize>
    ensures number { result ≡ number_from 0 (functions_of functions.now) (mfa_from module_name.now name.now arity) }
    ensures within { IfSome result (λ i. i < length functions.now) }
{
    for i in 0..functions.len() {
        if is_named(&functions[i], module_name, name, arity) {
            return Some(i);
        }
    }
    None
}
