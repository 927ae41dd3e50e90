// The trap of a command's specification, which is kept after the clauses that it was read from.
ghost use Rattle.std.specs.Prelude.{◌≡◌, IfOk};
ghost use Rattle.tn_trap.specs.Views.{body_trap_seen, trap_seen};
ghost use Rattle.tn_command_reason.specs.HeldTraps.{held_body_trap_seen, held_trap_seen};

use std::alloc::{AllocError, Allocator};
use tn_spec::{Action, Dialect};
use tn_term::{Atom, Term};
use tn_trap::{BodyTrap, Trap};

/// What an expression of a body is that has no effect.
#[derive(Drop)]
pub enum HeldBodyTrap<A: Allocator> {
    /// The name of an action, which is a constant.
    NamesAction(Atom<A>),
    /// An action that marks a call, where there is no call.
    MarksNoCall(Action),
    /// An action that changes flags, and what stands where it takes a flag or a list of flags.
    LacksFlag(Action, Term<A>),
}

/// What a clause has.
#[derive(Drop)]
pub enum HeldTrap<A: Allocator> {
    /// Its head is a list of so many elements, and no list that is matched has as many.
    OfHead {
        elements: usize,
    },
    /// An expression of its body, after so many.
    OfBody {
        before: usize,
        trap: HeldBodyTrap<A>,
    },
}

/// The trap of the clause after so many of a specification, by which a command that is done replies this number.
#[derive(Drop)]
pub struct SpecTrap<A: Allocator> {
    pub count: usize,
    pub before: usize,
    pub dialect: Dialect,
    pub trap: HeldTrap<A>,
}

/// A copy of what an expression of a body is.
fn held_body_trap<A: Allocator + Copy>(
    alloc: A,
    trap: BodyTrap<'_, A>,
) -> Result<HeldBodyTrap<A>, AllocError>
    ensures { IfOk result (λ t. held_body_trap_seen t ≡ body_trap_seen trap.entry) }
{
    match trap {
        BodyTrap::NamesAction(name) => Ok(HeldBodyTrap::NamesAction(name.copy_into(alloc)?)),
        BodyTrap::MarksNoCall(action) => Ok(HeldBodyTrap::MarksNoCall(action)),
        BodyTrap::LacksFlag(action, term) => {
            Ok(HeldBodyTrap::LacksFlag(action, term.copy_into(alloc)?))
        }
    }
}

/// A copy of what a clause has.
pub(crate) fn held_trap<A: Allocator + Copy>(
    alloc: A,
    trap: Trap<'_, A>,
) -> Result<HeldTrap<A>, AllocError>
    ensures { IfOk result (λ t. held_trap_seen t ≡ trap_seen trap.entry) }
{
    match trap {
        Trap::OfHead { elements } => Ok(HeldTrap::OfHead { elements }),
        Trap::OfBody { before, trap } => Ok(HeldTrap::OfBody {
            before,
            trap: held_body_trap(alloc, trap)?,
        }),
    }
}

/// What an expression of a body is, lent.
fn lent_body_trap<'a, A: Allocator>(trap: &'a HeldBodyTrap<A>) -> BodyTrap<'a, A>
    ensures { body_trap_seen result ≡ held_body_trap_seen trap.now }
{
    match trap {
        HeldBodyTrap::NamesAction(name) => BodyTrap::NamesAction(name),
        HeldBodyTrap::MarksNoCall(action) => BodyTrap::MarksNoCall(*action),
        HeldBodyTrap::LacksFlag(action, term) => BodyTrap::LacksFlag(*action, term),
    }
}

/// What a clause has, lent.
pub(crate) fn lent_trap<'a, A: Allocator>(trap: &'a HeldTrap<A>) -> Trap<'a, A>
    ensures { trap_seen result ≡ held_trap_seen trap.now }
{
    match trap {
        HeldTrap::OfHead { elements } => Trap::OfHead {
            elements: *elements,
        },
        HeldTrap::OfBody { before, trap } => Trap::OfBody {
            before: *before,
            trap: lent_body_trap(trap),
        },
    }
}
