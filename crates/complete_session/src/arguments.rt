// What the arguments of commands stand for.
ghost use Rattle.std.specs.Prelude.{◌≡◌, IfOk};
ghost use Rattle.std.specs.Option.{option_map};
ghost use Rattle.tn_term.specs.Views.{tree_of};
ghost use Rattle.tn_flags.specs.Views.{flags_of as flags_seen};
ghost use Rattle.tn_index.specs.Views.{function_pattern_seen};
ghost use Rattle.tn_session.specs.Procs.{procs_seen};

use std::alloc::{AllocError, Allocator};
use tn_flags::Flags;
use tn_index::FunctionPattern;
use tn_session::Procs;
use tn_term::Term;

/// `tn_session::procs_of` has one answer.
pub fn procs_of<A: Allocator>(one: &Term<A>, other: &Term<A>) -> (Option<Procs>, Option<Procs>)
    requires { tree_of one.now ≡ tree_of other.now }
    ensures { option_map procs_seen result.0 ≡ option_map procs_seen result.1 }
{
    (tn_session::procs_of(one), tn_session::procs_of(other))
}

/// `tn_session::how_of` has one answer.
pub fn how_of<A: Allocator>(one: &Term<A>, other: &Term<A>) -> (Option<bool>, Option<bool>)
    requires { tree_of one.now ≡ tree_of other.now }
    ensures { result.0 ≡ result.1 }
{
    (tn_session::how_of(one), tn_session::how_of(other))
}

/// `tn_session::flags_of` has one answer.
pub fn flags_of<A: Allocator>(one: &Term<A>, other: &Term<A>) -> (Option<Flags>, Option<Flags>)
    requires { tree_of one.now ≡ tree_of other.now }
    ensures { option_map flags_seen result.0 ≡ option_map flags_seen result.1 }
{
    (tn_session::flags_of(one), tn_session::flags_of(other))
}

/// `tn_session::options_of` has one answer.
pub fn options_of<A: Allocator>(one: &Term<A>, other: &Term<A>) -> (Option<bool>, Option<bool>)
    requires { tree_of one.now ≡ tree_of other.now }
    ensures { result.0 ≡ result.1 }
{
    (tn_session::options_of(one), tn_session::options_of(other))
}

/// `tn_session::pattern_of` has one answer.
pub fn pattern_of<A: Allocator + Copy>(
    alloc: A,
    one: &Term<A>,
    other: &Term<A>,
) -> (
    Result<Option<FunctionPattern<A>>, AllocError>,
    Result<Option<FunctionPattern<A>>, AllocError>,
)
    requires { tree_of one.now ≡ tree_of other.now }
    ensures { IfOk result.0 (λ p. IfOk result.1 (λ q.
        option_map function_pattern_seen p ≡ option_map function_pattern_seen q)) }
{
    (
        tn_session::pattern_of(alloc, one),
        tn_session::pattern_of(alloc, other),
    )
}
