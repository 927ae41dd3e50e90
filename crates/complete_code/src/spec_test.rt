// What becomes of the clauses of a specification, in lines.
ghost use Rattle.std.specs.Prelude.{◌≡◌, OnOk, OnErr};
ghost use Rattle.tn_action.specs.Views.{context_seen};
ghost use Rattle.tn_spec.specs.Wholes.{spec_seen};

use std::alloc::{AllocError, Allocator};
use tn_action::Context;
use tn_spec::Spec;

/// `tn_verdict::put_clause` has one answer but for what stands there after refused memory: that is a part of it.
pub fn put_clause<B: Allocator>(
    before: usize,
    one: &mut Vec<u8, B>,
    other: &mut Vec<u8, B>,
) -> (Result<(), AllocError>, Result<(), AllocError>)
    requires { one.old.items ≡ other.old.items }
    ensures { OnOk result.0 (OnOk result.1 (one.new.items ≡ other.new.items)) }
{
    let first = tn_verdict::put_clause(before, one);
    let second = tn_verdict::put_clause(before, other);
    (first, second)
}

/// `tn_verdict::put_spec_test` has one answer.
pub fn put_spec_test<A: Allocator + Copy, B: Allocator>(
    alloc: A,
    spec: &Spec<A>,
    again: &Spec<A>,
    context: &Context<'_, '_, A>,
    one: &mut Vec<u8, B>,
    other: &mut Vec<u8, B>,
) -> (Result<(), AllocError>, Result<(), AllocError>)
    requires specs { spec_seen spec.now ≡ spec_seen again.now }
    requires texts { one.old.items ≡ other.old.items }
    ensures ok { OnOk result.0 (OnOk result.1 (one.new.items ≡ other.new.items)) }
    ensures one_err { OnErr result.0 (one.new.items ≡ one.old.items) }
    ensures other_err { OnErr result.1 (other.new.items ≡ other.old.items) }
{
    let first = tn_verdict::put_spec_test(alloc, spec, context, one);
    let second = tn_verdict::put_spec_test(alloc, again, context, other);
    (first, second)
}
