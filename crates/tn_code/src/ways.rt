// The ways on from an instruction, and what it reads.
ghost use Rattle.std.specs.Prelude.{◌≡◌, ◌∷◌, []};
ghost use Rattle.def_machine.specs.Validity.{ways, onward, ways_of_fault};
ghost use Rattle.def_machine.specs.Acceptance.{all_of_them, leads_forward, stops_at};
ghost use Rattle.tn_code.specs.Views.{instruction_of, on_fault_seen};
ghost use Rattle.tn_code.specs.Ways.{ways_seen, next_before, away_list};

use crate::instr::{Instr, OnFault};
use std::alloc::Allocator;

/// The way to the next place.
#[derive(Clone, Copy)]
pub enum Next {
    /// There is none.
    Never,
    Plain,
    /// It sets this register.
    Sets(usize),
}

/// The ways on from an instruction.
#[derive(Clone, Copy)]
pub struct Ways {
    pub next: Next,
    /// To another place.
    pub away: Option<usize>,
}

/// On to the next place alone.
fn onward(to: usize) -> Ways
    ensures { ways_seen result ≡ next_before (Next.Sets to) (away_list None) }
{
    Ways {
        next: Next::Sets(to),
        away: None,
    }
}

/// On to the next place, or where a fault leads.
fn onward_or_away(to: usize, on_fault: OnFault) -> Ways
    ensures { ways_seen result ≡ onward (to ∷ []) ∷ ways_of_fault (on_fault_seen on_fault) }
{
    match on_fault {
        OnFault::Place(place) => Ways {
            next: Next::Sets(to),
            away: Some(place),
        },
        OnFault::Exit => onward(to),
    }
}

/// The ways on from the instruction.
pub fn ways_of<A: Allocator>(instr: &Instr<A>) -> Ways
    ensures { ways_seen result ≡ ways (instruction_of instr.now) }
{
    match instr {
        Instr::LoadConstant { to, .. } => onward(*to),
        Instr::LoadList { to } => onward(*to),
        Instr::LoadOwnPid { to } => onward(*to),
        Instr::LoadCaller { to } => onward(*to),
        Instr::TakeElement { to, place, .. } => Ways {
            next: Next::Sets(*to),
            away: Some(*place),
        },
        Instr::TakeRest { to, place, .. } => Ways {
            next: Next::Sets(*to),
            away: Some(*place),
        },
        Instr::TestKind { place, .. } => Ways {
            next: Next::Plain,
            away: Some(*place),
        },
        Instr::TestLength { place, .. } => Ways {
            next: Next::Plain,
            away: Some(*place),
        },
        Instr::TestEqual { place, .. } => Ways {
            next: Next::Plain,
            away: Some(*place),
        },
        Instr::Jump { place } => Ways {
            next: Next::Never,
            away: Some(*place),
        },
        Instr::Build { to, .. } => onward(*to),
        Instr::Apply { to, on_fault, .. } => onward_or_away(*to, *on_fault),
        Instr::Perform { to, .. } => onward(*to),
        Instr::ChangeFlags { to, on_fault, .. } => onward_or_away(*to, *on_fault),
        Instr::EndMatch | Instr::EndNoMatch => Ways {
            next: Next::Never,
            away: None,
        },
    }
}

impl Ways {
    /// Whether each leads forward from the place, to one of so many instructions.
    pub fn lead_forward(self, count: usize, place: usize) -> bool
        ensures { result ≡ all_of_them (leads_forward count place) (ways_seen self) }
    {
        let next = match self.next {
            Next::Never => true,
            Next::Plain | Next::Sets(_) => place < count && place + 1 < count,
        };
        match self.away {
            Some(away) => next && place < away && away < count,
            None => next,
        }
    }

    /// Whether none leads from the place past `setter` to `reader` or before it, but one from `setter`
    /// that sets the register.
    pub fn stop_at(self, setter: usize, reader: usize, register: usize, place: usize) -> bool
        ensures { result ≡ all_of_them (stops_at setter reader register place) (ways_seen self) }
    {
        let next = match self.next {
            Next::Never => true,
            Next::Plain => place < setter || reader <= place,
            Next::Sets(to) => place < setter
                || reader <= place
                || (place == setter && register == to),
        };
        match self.away {
            Some(away) => next && (away <= setter || reader < away),
            None => next,
        }
    }
}
