// A specification as a session keeps it: with its code.
ghost use Rattle.std.specs.Prelude.{◌≡◌};
ghost use Rattle.def_machine.specs.Compilation.{code_of};
ghost use Rattle.tn_code.specs.Codes.{code_seen};
ghost use Rattle.tn_spec.specs.Wholes.{spec_seen};

use bumpalo::Bump;
use std::alloc::{AllocError, Allocator};
use tn_code::Code;
use tn_compile::compile;
use tn_machine::{Context, Outcome, execute};
use tn_spec::Spec;

/// A specification with its code, by which it is evaluated.
#[derive(Drop)]
pub(crate) struct CompiledSpec<A: Allocator> {
    code: Code<A>,
    specification: Spec<A>,
    ghost its: { ∥ code_seen code ≡ code_of (spec_seen specification) ∥₁ },
}

impl<A: Allocator + Copy> CompiledSpec<A> {
    ghost use Rattle.std.specs.Prelude.{IfOk};
    ghost use Rattle.def_spec.specs.Outcome.{outcome_of};
    ghost use Rattle.tn_machine.specs.Types.{context_seen, outcome_seen};
    ghost use Rattle.tn_session.specs.Compilations.{compiled_seen};

    /// Compiles the specification. An error is refused memory.
    pub(crate) fn of(alloc: A, specification: Spec<A>) -> Result<CompiledSpec<A>, AllocError>
        ensures { IfOk result (λ c. compiled_seen c ≡ spec_seen specification) }
    {
        let code = compile(alloc, &specification)?;
        Ok(CompiledSpec {
            code,
            specification,
        })
    }

    /// The specification.
    pub(crate) fn specification(&self) -> &Spec<A>
        ensures { spec_seen result.now ≡ compiled_seen self.now }
    {
        &self.specification
    }

    /// What the specification gives in a context. The values lie in the arena, or are lent. An error is refused
    /// memory.
    pub(crate) fn outcome<'a>(
        &'a self,
        alloc: A,
        context: &Context<'a, '_, A>,
        arena: &'a Bump<A>,
    ) -> Result<Outcome<'a, A>, AllocError>
        ensures { IfOk result (λ o. outcome_seen o ≡ outcome_of (compiled_seen self.now) (context_seen context.now)) }
    {
        Ok(execute(alloc, &self.code, context, arena)?)
    }
}
