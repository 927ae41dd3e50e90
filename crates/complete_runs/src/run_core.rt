// The core of a run.
ghost use Rattle.std.specs.Prelude.{◌≡◌, length, map, Err, IfOk};
ghost use Rattle.std.specs.Option.{IsSomeAnd};
ghost use Rattle.def_run.specs.Run.{JOURNAL};
ghost use Rattle.tn_text.specs.WrittenTrees.{written_tree};
ghost use Rattle.tn_program.specs.Views.{program_of};
ghost use Rattle.complete_runs.specs.Alike.{StepAlike, listing_seen, seen_by};

use std::alloc::{AllocError, Allocator};
use tn_program::{Program, Sessions};
use tn_text::WrittenTerm;
use tn_trace::{Answer, Core, StepFault};

/// `tn_trace::Core::new` has one answer.
pub fn new<A: Allocator + Copy>(
    alloc: A,
    one: Program<A>,
    other: Program<A>,
) -> (Result<Core<A>, AllocError>, Result<Core<A>, AllocError>)
    requires { program_of one ≡ program_of other }
    ensures { IfOk result.0 (λ c. IfOk result.1 (λ d. c ≡ d)) }
{
    let first = Core::new(alloc, one);
    let second = Core::new(alloc, other);
    (first, second)
}

/// `tn_trace::Core::program` has one answer.
pub fn program<'a, A: Allocator + Copy>(
    one: &'a Core<A>,
    other: &'a Core<A>,
) -> (&'a Program<A>, &'a Program<A>)
    requires { one.now.program ≡ other.now.program }
    ensures { program_of result.0.now ≡ program_of result.1.now }
{
    (one.program(), other.program())
}

/// `tn_trace::Core::sessions` has one answer.
pub fn sessions<'a, A: Allocator + Copy>(
    one: &'a Core<A>,
    other: &'a Core<A>,
) -> (Sessions<'a, A>, Sessions<'a, A>)
    requires { one.now.program ≡ other.now.program }
    ensures { result.0 ≡ result.1 }
{
    (one.sessions(), other.sessions())
}

/// `tn_trace::Core::step` has one answer. It includes the core afterwards.
pub fn step<A: Allocator + Copy>(
    one: &mut Core<A>,
    other: &mut Core<A>,
    pick: u32,
) -> (Result<Answer<A>, StepFault>, Result<Answer<A>, StepFault>)
    requires { one.old ≡ other.old }
    ensures { StepAlike one.old.program result.0 one.new result.1 other.new }
{
    let first = one.step(pick);
    let second = other.step(pick);
    (first, second)
}

/// `tn_trace::Core::step` has one answer of a core whose journal is full: the core is the same afterwards, so
/// its journal, its listings, its replies and what a later step answers are.
pub fn step_of_full<A: Allocator + Copy>(
    core: &mut Core<A>,
    pick: u32,
) -> Result<Answer<A>, StepFault>
    requires { IsSomeAnd core.old.journal (λ picks. length picks ≡ JOURNAL) }
    ensures fault { result ≡ Err StepFault.LimitReached }
    ensures same { core.new ≡ core.old }
{
    core.step(pick)
}

/// `tn_trace::Core::journal` has one answer.
pub fn journal<'a, A: Allocator + Copy>(
    one: &'a Core<A>,
    other: &'a Core<A>,
) -> (Result<&'a [u32], StepFault>, Result<&'a [u32], StepFault>)
    requires { one.now ≡ other.now }
    ensures { seen_by (λ v. v.now) result.0 ≡ seen_by (λ v. v.now) result.1 }
{
    (one.journal(), other.journal())
}

/// `tn_trace::Core::replies` has one answer.
pub fn replies<'a, A: Allocator + Copy>(
    one: &'a Core<A>,
    other: &'a Core<A>,
) -> (
    Result<&'a [WrittenTerm<A>], StepFault>,
    Result<&'a [WrittenTerm<A>], StepFault>,
)
    requires { one.now ≡ other.now }
    ensures { seen_by (λ v. map written_tree v.now) result.0 ≡ seen_by (λ v. map written_tree v.now) result.1 }
{
    (one.replies(), other.replies())
}

/// `tn_trace::Core::listing` has one answer.
pub fn listing<'a, A: Allocator + Copy>(
    one: &'a Core<A>,
    other: &'a Core<A>,
    session: u32,
) -> (
    Result<Option<&'a [WrittenTerm<A>]>, StepFault>,
    Result<Option<&'a [WrittenTerm<A>]>, StepFault>,
)
    requires { one.now ≡ other.now }
    ensures { seen_by listing_seen result.0 ≡ seen_by listing_seen result.1 }
{
    (one.listing(session), other.listing(session))
}
