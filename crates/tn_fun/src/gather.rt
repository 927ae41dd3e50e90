// Operands with the operators that bind them.
ghost use Rattle.std.specs.Prelude.{◌≡◌, List, ℕ, IfOk};
ghost use Rattle.def_fun.specs.Reading.{OpenPart, gather as with_operators};
ghost use Rattle.tn_fun.specs.Trees.{fun_expr_seen};
ghost use Rattle.tn_fun.specs.States.{open_parts_seen, CombinesOperand};

use crate::level::level_of;
use crate::part::Part;
use crate::tree::Expr;
use std::alloc::{AllocError, Allocator};

/// An operand with its operator, or the part and the operand apart.
#[derive(Drop)]
pub enum Combination<A: Allocator> {
    Whole(Expr<A>),
    Apart(Part<A>, Expr<A>),
}

/// The operand with its operator, where the part is an operator that binds so strongly.
fn combine<A: Allocator + Copy>(
    alloc: A,
    level: u8,
    part: Part<A>,
    operand: Expr<A>,
) -> Result<Combination<A>, AllocError>
    ensures { IfOk result (λ t. (text : List ℕ) (fs : List OpenPart) → CombinesOperand text level t part operand fs) }
{
    match part {
        Part::Prefix(at, operator) => {
            Ok(Combination::Whole(Expr::Before(at, operator, Box::new(alloc, operand)?)))
        }
        Part::Left(at, operator, left) => {
            if level_of(operator) < level {
                return Ok(Combination::Apart(Part::Left(at, operator, left), operand));
            }
            let left = Box::new(alloc, left)?;
            Ok(Combination::Whole(Expr::Between(at, operator, left, Box::new(alloc, operand)?)))
        }
        other => Ok(Combination::Apart(other, operand)),
    }
}

/// The operand with the operators that wait for it and bind at least so strongly, and the parts that
/// are left.
pub fn gather<A: Allocator + Copy>(
    alloc: A,
    level: u8,
    operand: Expr<A>,
    parts: Vec<Part<A>, A>,
) -> Result<(Expr<A>, Vec<Part<A>, A>), AllocError>
    ensures { IfOk result (λ p. (text : List ℕ) → with_operators level (fun_expr_seen text operand)
        (open_parts_seen text parts.items) ≡ (fun_expr_seen text p.0, open_parts_seen text p.1.items)) }
{
    let mut operand = operand;
    let mut parts = parts;
    while let Some(part) = parts.pop() {
        match combine(alloc, level, part, operand)? {
            Combination::Whole(whole) => operand = whole,
            Combination::Apart(part, operand) => {
                parts.push(part)?;
                return Ok((operand, parts));
            }
        }
    }
    Ok((operand, parts))
}
