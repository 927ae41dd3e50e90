// A program, as its users see it.
ghost use Rattle.std.specs.Prelude.{◌≡◌, IfOk, map};
ghost use Rattle.std.specs.Arc.{arc_value};
ghost use Rattle.std.specs.Option.{option_map};
ghost use Rattle.tn_flags.specs.Views.{command_of};
ghost use Rattle.tn_script.specs.Views.{functions_of, entry_of};
ghost use Rattle.tn_program.specs.Variables.{name_pair};
ghost use Rattle.tn_program.specs.Views.{program_of};

use std::alloc::{AllocError, Allocator};
use tn_flags::Command;
use tn_program::{Program, Sessions, SharedFunctions};
use tn_script::{Entry, Function};
use tn_term::Atom;

/// `tn_program::Program::functions` has one answer.
pub fn functions<'a, A: Allocator>(
    one: &'a Program<A>,
    other: &'a Program<A>,
) -> (&'a [Function<A>], &'a [Function<A>])
    requires { program_of one.now ≡ program_of other.now }
    ensures { functions_of result.0.now ≡ functions_of result.1.now }
{
    (one.functions(), other.functions())
}

/// `tn_program::Program::share_functions` has one answer.
pub fn share_functions<A: Allocator>(
    one: &Program<A>,
    other: &Program<A>,
) -> (
    Result<SharedFunctions<A>, AllocError>,
    Result<SharedFunctions<A>, AllocError>,
)
    requires { program_of one.now ≡ program_of other.now }
    ensures { IfOk result.0 (λ x. IfOk result.1 (λ y.
        functions_of (arc_value x).items ≡ functions_of (arc_value y).items)) }
{
    let first = one.share_functions();
    let second = other.share_functions();
    (first, second)
}

/// `tn_program::Program::entries` has one answer.
pub fn entries<'a, A: Allocator>(
    one: &'a Program<A>,
    other: &'a Program<A>,
) -> (&'a [Entry<A>], &'a [Entry<A>])
    requires { program_of one.now ≡ program_of other.now }
    ensures { map entry_of result.0.now ≡ map entry_of result.1.now }
{
    (one.entries(), other.entries())
}

/// `tn_program::Program::commands` has one answer.
pub fn commands<'a, A: Allocator>(
    one: &'a Program<A>,
    other: &'a Program<A>,
) -> (&'a [Command<A>], &'a [Command<A>])
    requires { program_of one.now ≡ program_of other.now }
    ensures { map command_of result.0.now ≡ map command_of result.1.now }
{
    (one.commands(), other.commands())
}

/// `tn_program::Program::session_count` has one answer.
pub fn session_count<A: Allocator>(one: &Program<A>, other: &Program<A>) -> (usize, usize)
    requires { program_of one.now ≡ program_of other.now }
    ensures { result.0 ≡ result.1 }
{
    (one.session_count(), other.session_count())
}

/// `tn_program::Program::session_at` has one answer.
pub fn session_at<'a, A: Allocator>(
    one: &'a Program<A>,
    other: &'a Program<A>,
    number: usize,
) -> (
    Option<(&'a Atom<A>, &'a Atom<A>)>,
    Option<(&'a Atom<A>, &'a Atom<A>)>,
)
    requires { program_of one.now ≡ program_of other.now }
    ensures { option_map name_pair result.0 ≡ option_map name_pair result.1 }
{
    (one.session_at(number), other.session_at(number))
}

/// `tn_program::Program::sessions` has one answer.
pub fn sessions<'a, A: Allocator>(
    one: &'a Program<A>,
    other: &'a Program<A>,
) -> (Sessions<'a, A>, Sessions<'a, A>)
    requires { program_of one.now ≡ program_of other.now }
    ensures { result.0 ≡ result.1 }
{
    (one.sessions(), other.sessions())
}

/// `tn_program::Sessions::next` has one answer. It includes what is still to come.
pub fn next<'a, A: Allocator>(
    one: &mut Sessions<'a, A>,
    other: &mut Sessions<'a, A>,
) -> (
    Option<(&'a Atom<A>, &'a Atom<A>)>,
    Option<(&'a Atom<A>, &'a Atom<A>)>,
)
    requires { one.old ≡ other.old }
    ensures session { option_map name_pair result.0 ≡ option_map name_pair result.1 }
    ensures left { one.new ≡ other.new }
{
    let first = one.next();
    let second = other.next();
    (first, second)
}

/// `tn_program::Program::same` has one answer.
pub fn same<A: Allocator>(
    one: &Program<A>,
    other: &Program<A>,
    one_again: &Program<A>,
    other_again: &Program<A>,
) -> (bool, bool)
    requires ones { program_of one.now ≡ program_of one_again.now }
    requires others { program_of other.now ≡ program_of other_again.now }
    ensures { result.0 ≡ result.1 }
{
    (one.same(other), one_again.same(other_again))
}
