// Which variables a head binds.
ghost use Rattle.std.specs.Prelude.{◌≡◌, ◌≤◌};
ghost use Rattle.def_spec.specs.Matching.{occurs};
ghost use Rattle.def_spec.specs.Matching as matching;
ghost use Rattle.tn_spec.specs.Variables.{IsTableOf, mark_variables, marked_all};
ghost use Rattle.tn_spec.specs.Views.{pattern_seen, pattern_list, head_seen};

use crate::pattern::{Head, Pattern};
use std::alloc::Allocator;

/// A head, with a table of the variables that it binds: one walk of the head answers for all of them.
#[derive(Drop)]
pub struct Variables<'a, A: Allocator> {
    head: &'a Head<A>,
    table: [bool; 1000],
    ghost right: { IsTableOf (head_seen head.now) table },
}

impl<'a, A: Allocator> Variables<'a, A> {
    /// The variables of this head.
    pub fn of(head: &'a Head<A>) -> Variables<'a, A>
        ensures { head_seen result.head.now ≡ head_seen head.now }
    {
        let mut table = [false; 1000];
        match head {
            Head::Variable(n) => mark_one(*n, &mut table),
            Head::Anything => {}
            Head::List(patterns) => mark_all(patterns, &mut table),
        }
        Variables { head, table }
    }

    /// Whether the variable of this number stands in the head.
    pub fn has(&self, n: u16) -> bool
        requires { n ≤ 999 }
        ensures { result ≡ occurs n (head_seen self.now.head.now) }
    {
        self.table[usize::from(n)]
    }
}

/// Marks one variable; no variable has a number past the table.
fn mark_one(n: u16, table: &mut [bool; 1000])
    ensures { table.new ≡ mark_variables (matching.variable n) table.old }
{
    let place = usize::from(n);
    if place < table.len() {
        table[place] = true;
    }
}

/// Marks the variables of a pattern.
#[cycle(mark)]
fn mark<A: Allocator>(pattern: &Pattern<A>, table: &mut [bool; 1000])
    ensures { table.new ≡ mark_variables (pattern_seen pattern.now) table.old }
{
    match pattern {
        Pattern::Variable(n) => mark_one(*n, table),
        Pattern::Anything | Pattern::Only(_) => {}
        Pattern::Tuple(patterns) | Pattern::List(patterns) => mark_all(patterns, table),
    }
}

/// Marks the variables of each pattern.
#[cycle(mark)]
fn mark_all<A: Allocator>(patterns: &Vec<Pattern<A>, A>, table: &mut [bool; 1000])
    ensures { table.new ≡ marked_all (pattern_list patterns.now) table.old }
{
    for pattern in patterns {
        mark(pattern, table);
    }
}
