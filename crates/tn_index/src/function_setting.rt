// What a function command sets, and for which functions.
ghost use Rattle.std.specs.Prelude.{◌≡◌, IfOk};
ghost use Rattle.def_session.specs.Settings.{is_covered};
ghost use Rattle.tn_term.specs.Views.{mfa_seen};
ghost use Rattle.tn_index.specs.Views.{function_pattern_seen, covers};

use std::alloc::{AllocError, Allocator};
use tn_term::{Atom, Mfa};

/// What a command sets (`trace:function/4`, `trace:send/3`, `trace:recv/3`).
#[derive(Drop)]
pub enum Setting<S> {
    /// Disabled.
    Disabled,
    /// Without a specification.
    Always,
    /// With this one.
    Specification(S),
}

/// The functions that a command is about.
#[derive(Drop)]
pub enum FunctionPattern<A: Allocator> {
    One(Mfa<A>),
    AnyArity { module: Atom<A>, name: Atom<A> },
    WholeModule(Atom<A>),
    Every,
}

impl<A: Allocator> FunctionPattern<A> {
    /// The same functions in another allocator.
    ///
    /// # Errors
    ///
    /// AllocError where memory was refused.
    pub fn copy_into<B: Allocator + Copy>(&self, b: B) -> Result<FunctionPattern<B>, AllocError>
        ensures { IfOk result (λ p. function_pattern_seen p ≡ function_pattern_seen self.now) }
    {
        match self {
            FunctionPattern::One(one) => Ok(FunctionPattern::One(one.copy_into(b)?)),
            FunctionPattern::AnyArity { module, name } => {
                let module = module.copy_into(b)?;
                let name = name.copy_into(b)?;
                Ok(FunctionPattern::AnyArity { module, name })
            }
            FunctionPattern::WholeModule(module) => {
                Ok(FunctionPattern::WholeModule(module.copy_into(b)?))
            }
            FunctionPattern::Every => Ok(FunctionPattern::Every),
        }
    }

    /// Whether the function is one of these.
    pub fn has(&self, function: &Mfa<A>) -> bool
        ensures { result ≡ is_covered (function_pattern_seen self.now) (mfa_seen function.now) }
    {
        match self {
            FunctionPattern::One(one) => one.same(function),
            FunctionPattern::AnyArity { module, name } => {
                module.text() == function.module.text() && name.text() == function.name.text()
            }
            FunctionPattern::WholeModule(module) => module.text() == function.module.text(),
            FunctionPattern::Every => true,
        }
    }
}

/// A function command that was accepted.
#[derive(Drop)]
pub struct FunctionSetting<S, A: Allocator> {
    pub covered: FunctionPattern<A>,
    pub setting: Setting<S>,
    /// Whether it is about all functions and all their calls; else it is about the exported ones, and the
    /// calls that name the module.
    pub local: bool,
}

impl<S, A: Allocator> FunctionSetting<S, A> {
    /// Whether the function, exported or not, is among those that the command matches.
    pub fn has_among(&self, function: &Mfa<A>, exported: bool) -> bool
        ensures { result ≡ covers self.now (mfa_seen function.now) exported }
    {
        self.covered.has(function) && (self.local || exported)
    }
}
