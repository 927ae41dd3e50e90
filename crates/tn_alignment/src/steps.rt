// The steps through two lists of lines.
ghost use Rattle.std.specs.Prelude.{◌≡◌, ◌+◌, ◌-◌, ◌<◌, ◌≤◌, [], length, map, reverse, IfOk, IfSome, IfNone};
ghost use Rattle.std.specs.Str.{bytes_eq};
ghost use Rattle.std.proofs.Common.{get_or};
ghost use Rattle.def_alignment.specs.Alignments.{IsAlignment};
ghost use Rattle.tn_alignment.specs.Tables.{back, CommonStepLoses, FirstStepLoses, IsGrid, IsLeft, IsTable};
ghost use Rattle.tn_alignment.specs.Tables.{LeadsThrough, line_step_seen, line_texts, most_common};

use crate::rows::table_of;
use std::alloc::{AllocError, Allocator};

/// The next line of two lists of lines.
#[derive(Clone, Copy, Debug, PartialEq, Eq)]
pub enum Step {
    /// Both have it.
    Both,
    /// The first alone has it.
    First,
    /// The second alone has it.
    Second,
}

/// Two lists of lines, each with its last line first, and the table of what they have in common.
#[derive(Clone, Copy)]
pub(crate) struct Grid<'a, A: Allocator> {
    pub(crate) first: &'a [&'a [u8]],
    pub(crate) second: &'a [&'a [u8]],
    pub(crate) table: &'a [Vec<usize, A>],
}

/// How many lines are left of each list.
#[derive(Clone, Copy)]
pub(crate) struct LinesLeft {
    pub(crate) first: usize,
    pub(crate) second: usize,
}

impl<A: Allocator> Grid<'_, A> {
    /// How many lines the last lines of both have in common at most.
    fn cell(&self, first: usize, second: usize) -> usize
        requires grid { IsGrid self.now }
        requires first { first ≤ length self.now.first.now }
        requires second { second ≤ length self.now.second.now }
        ensures cell { result ≡ most_common (back (line_texts self.now.first.now) first)
            (back (line_texts self.now.second.now) second) }
        ensures within { result ≤ first }
    {
        self.table[first][second]
    }

    /// Whether the next lines of both are the same.
    fn is_same(&self, first: usize, second: usize) -> bool
        requires first { (0 < first) × (first ≤ length self.now.first.now) }
        requires second { (0 < second) × (second ≤ length self.now.second.now) }
        ensures { result ≡ bytes_eq (get_or (line_texts self.now.first.now) (first - 1) [])
            (get_or (line_texts self.now.second.now) (second - 1) []) }
    {
        self.first[first - 1] == self.second[second - 1]
    }

    /// The step by a line that both have, where that loses none of what they have in common.
    fn common_step(&self, left: LinesLeft) -> Option<LinesLeft>
        requires grid { IsGrid self.now }
        requires left { IsLeft (line_texts self.now.first.now) (line_texts self.now.second.now) left }
        ensures some { IfSome result (LeadsThrough (line_texts self.now.first.now) (line_texts self.now.second.now)
            left (line_step_seen Step.Both)) }
        ensures none { IfNone result
            (CommonStepLoses (line_texts self.now.first.now) (line_texts self.now.second.now) left) }
    {
        let LinesLeft { first, second } = left;
        if first == 0 || second == 0 {
            return None;
        }
        if !self.is_same(first, second) {
            return None;
        }
        if self.cell(first, second) == self.cell(first - 1, second - 1) + 1 {
            Some(LinesLeft {
                first: first - 1,
                second: second - 1,
            })
        } else {
            None
        }
    }

    /// The step by a line of the first list, where that loses none of what they have in common.
    fn first_step(&self, left: LinesLeft) -> Option<LinesLeft>
        requires grid { IsGrid self.now }
        requires left { IsLeft (line_texts self.now.first.now) (line_texts self.now.second.now) left }
        ensures some { IfSome result (LeadsThrough (line_texts self.now.first.now) (line_texts self.now.second.now)
            left (line_step_seen Step.First)) }
        ensures none { IfNone result
            (FirstStepLoses (line_texts self.now.first.now) (line_texts self.now.second.now) left) }
    {
        let LinesLeft { first, second } = left;
        if first > 0 && self.cell(first, second) == self.cell(first - 1, second) {
            Some(LinesLeft {
                first: first - 1,
                second,
            })
        } else {
            None
        }
    }

    /// The next step through the lines that are left, and what is left after it.
    fn next_step(&self, left: LinesLeft) -> (Step, LinesLeft)
        requires grid { IsGrid self.now }
        requires left { IsLeft (line_texts self.now.first.now) (line_texts self.now.second.now) left }
        requires some { 0 < left.first + left.second }
        ensures { LeadsThrough (line_texts self.now.first.now) (line_texts self.now.second.now)
            left (line_step_seen result.0) result.1 }
    {
        if let Some(rest) = self.common_step(left) {
            return (Step::Both, rest);
        }
        if let Some(rest) = self.first_step(left) {
            return (Step::First, rest);
        }
        let LinesLeft { first, second } = left;
        let rest = LinesLeft {
            first,
            second: second - 1,
        };
        (Step::Second, rest)
    }
}

/// The steps through two lists of lines, by the table of what they have in common.
fn steps_by<A: Allocator + Copy>(
    alloc: A,
    first: &[&[u8]],
    second: &[&[u8]],
    table: &[Vec<usize, A>],
) -> Result<Vec<Step, A>, AllocError>
    requires { IsTable (line_texts first.now) (line_texts second.now) table.now }
    ensures { IfOk result (λ v. IsAlignment (map line_step_seen v.items)
        (reverse (line_texts first.now)) (reverse (line_texts second.now))) }
{
    let grid = Grid {
        first,
        second,
        table,
    };
    let mut steps = Vec::new(alloc);
    let mut left = LinesLeft {
        first: first.len(),
        second: second.len(),
    };
    while left.first > 0 || left.second > 0 {
        let (step, rest) = grid.next_step(left);
        steps.push(step)?;
        left = rest;
    }
    Ok(steps)
}

/// The steps through two lists of lines, each of which is given with its last line first.
///
/// # Errors
///
/// AllocError where memory was refused.
pub fn alignment<A: Allocator + Copy>(
    alloc: A,
    first: &[&[u8]],
    second: &[&[u8]],
) -> Result<Vec<Step, A>, AllocError>
    ensures { IfOk result (λ v. IsAlignment (map line_step_seen v.items)
        (reverse (line_texts first.now)) (reverse (line_texts second.now))) }
{
    let table = table_of(alloc, first, second)?;
    steps_by(alloc, first, second, &table)
}
