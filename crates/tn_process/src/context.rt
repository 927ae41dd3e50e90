// What a step of a process is given, and what a call, a catch or a spawn names.
ghost use Rattle.std.specs.Prelude.{IsTrue};
ghost use Rattle.tn_process.specs.NamedOnce.{NamedOnce};

use crate::function::{find_function, is_named};
use crate::functions::Lookup;
use std::alloc::Allocator;
use tn_script::{Arguments, Function};
use tn_term::{Atom, SharedTerm};

/// What a step of a process is given.
#[derive(Drop)]
pub struct StepContext<'a, A: Allocator + Copy> {
    pub alloc: A,
    /// The functions of the program.
    pub functions: &'a [Function<A>],
    /// Where to look for one of them, and for a variable.
    pub lookup: &'a Lookup<A>,
    /// The process's own pid.
    pub pid: u32,
    /// The pid that a spawn would give.
    pub child: Option<u32>,
    ghost once: { IsTrue lookup.now.is_named_once → NamedOnce functions.now },
}

impl<A: Allocator + Copy> StepContext<'_, A> {
    ghost use Rattle.std.specs.Prelude.{◌≡◌, IfSome, Some};
    ghost use Rattle.def_script.specs.Program.{number_from};
    ghost use Rattle.def_term.specs.Names.{mfa_from};
    ghost use Rattle.tn_script.specs.Views.{functions_of};

    /// The number of the function, where the guess is right.
    fn guess(&self, module_name: &str, name: &str, arity: usize) -> Option<usize>
        ensures { IfSome result (λ i. Some i ≡
            number_from 0 (functions_of self.now.functions.now) (mfa_from module_name.now name.now arity)) }
    {
        if !self.lookup.is_named_once {
            return None;
        }
        let guess = self.lookup.guess(name);
        match self.functions.get(guess) {
            Some(function) if is_named(function, module_name, name, arity) => Some(guess),
            _ => None,
        }
    }

    /// The number of the first function of this name and number of parameters.
    pub fn find(&self, module_name: &str, name: &str, arity: usize) -> Option<usize>
        ensures { let f = mfa_from module_name.now name.now arity in
            result ≡ number_from 0 (functions_of self.now.functions.now) f }
    {
        match self.guess(module_name, name, arity) {
            Some(number) => Some(number),
            None => find_function(self.functions, module_name, name, arity),
        }
    }
}

/// What the step of a call, of a catch or of a spawn names.
#[derive(Drop)]
pub struct Callee<'a, A: Allocator + Copy> {
    pub target: &'a Option<Atom<A>>,
    /// Whether the step names the module.
    pub named: bool,
    /// Whether it is a catch step.
    pub by_catch: bool,
    pub home: &'a Atom<A>,
    pub name: &'a Atom<A>,
    pub templates: &'a Arguments<A>,
}

/// A call whose arguments are built.
#[derive(Drop)]
pub struct PendingCall<A: Allocator> {
    pub target: Option<Atom<A>>,
    /// Whether the call names the module.
    pub named: bool,
    /// Whether a catch step makes it.
    pub by_catch: bool,
    /// Each may have other owners, as the value of a variable has.
    pub args: Vec<SharedTerm<A>, A>,
}
