// Why a term or a text is no match specification.
ghost use Rattle.std.specs.Prelude.{◌≡◌, IfOk, OnOk};
ghost use Rattle.tn_term.specs.Views.{tree_of};
ghost use Rattle.tn_reason.specs.SpecReasons.{spec_reason_seen, spec_reasons_seen};
ghost use Rattle.complete_code.specs.SpecTestAnswers.{AreToldAlike};

use std::alloc::{AllocError, Allocator};
use tn_reason::SpecReason;
use tn_spec::Dialect;
use tn_term::Term;
use tn_text::TextFault;

/// `tn_reason::spec_reason` has one answer.
pub fn spec_reason<'a, A: Allocator + Copy>(
    alloc: A,
    term: &'a Term<A>,
    again: &'a Term<A>,
    dialect: Dialect,
) -> (
    Result<Option<SpecReason<'a, A>>, AllocError>,
    Result<Option<SpecReason<'a, A>>, AllocError>,
)
    requires { tree_of term.now ≡ tree_of again.now }
    ensures { IfOk result.0 (λ r. IfOk result.1 (λ q. spec_reasons_seen r ≡ spec_reasons_seen q)) }
{
    let first = tn_reason::spec_reason(alloc, term, dialect);
    let second = tn_reason::spec_reason(alloc, again, dialect);
    (first, second)
}

/// `tn_verdict::put_spec_reason` has one answer but for what stands there after refused memory: that is a part of it.
pub fn put_spec_reason<A: Allocator, B: Allocator>(
    why: SpecReason<'_, A>,
    again: SpecReason<'_, A>,
    one: &mut Vec<u8, B>,
    other: &mut Vec<u8, B>,
) -> (Result<(), AllocError>, Result<(), AllocError>)
    requires reasons { spec_reason_seen why ≡ spec_reason_seen again }
    requires texts { one.old.items ≡ other.old.items }
    ensures { OnOk result.0 (OnOk result.1 (one.new.items ≡ other.new.items)) }
{
    let first = tn_verdict::put_spec_reason(why, one);
    let second = tn_verdict::put_spec_reason(again, other);
    (first, second)
}

/// `tn_verdict::put_setting_reason` has one answer but for what stands there after refused memory: that is a part of
/// it.
pub fn put_setting_reason<A: Allocator, B: Allocator>(
    why: SpecReason<'_, A>,
    again: SpecReason<'_, A>,
    one: &mut Vec<u8, B>,
    other: &mut Vec<u8, B>,
) -> (Result<(), AllocError>, Result<(), AllocError>)
    requires reasons { spec_reason_seen why ≡ spec_reason_seen again }
    requires texts { one.old.items ≡ other.old.items }
    ensures { OnOk result.0 (OnOk result.1 (one.new.items ≡ other.new.items)) }
{
    let first = tn_verdict::put_setting_reason(why, one);
    let second = tn_verdict::put_setting_reason(again, other);
    (first, second)
}

/// `tn_verdict::no_specification_text` has one answer but for which refusal of memory is answered.
pub fn no_specification_text<A: Allocator + Copy>(
    alloc: A,
    text: &[u8],
    dialect: Dialect,
) -> (Result<Vec<u8, A>, TextFault>, Result<Vec<u8, A>, TextFault>)
    ensures { AreToldAlike result.0 result.1 }
{
    (
        tn_verdict::no_specification_text(alloc, text, dialect),
        tn_verdict::no_specification_text(alloc, text, dialect),
    )
}
