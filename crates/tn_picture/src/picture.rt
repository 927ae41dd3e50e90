// The picture of a run.
ghost use Rattle.std.specs.Prelude.{◌≡◌, IfOk, map};
ghost use Rattle.def_script.specs.Script.{creations};
ghost use Rattle.def_picture.specs.Picture.{picture_of};
ghost use Rattle.tn_program.specs.Views.{program_of};
ghost use Rattle.tn_moves.specs.Plans.{plan_picks};
ghost use Rattle.tn_picture.specs.Views.{picture_seen};

use crate::life::{Life, lives_of};
use crate::painter::rows_of;
use crate::row::Row;
use std::alloc::{AllocError, Allocator};
use tn_moves::Plan;
use tn_program::Program;
use tn_term::Atom;

/// The names of the sessions by their numbers, the lives in the order of the births, and the rows.
#[derive(Drop)]
pub struct Picture<A: Allocator> {
    pub sessions: Vec<Atom<A>, A>,
    pub lives: Vec<Life, A>,
    pub rows: Vec<Row<A>, A>,
}

/// The names of the sessions of the control list, in its order.
fn names_of<A: Allocator + Copy>(
    alloc: A,
    program: &Program<A>,
) -> Result<Vec<Atom<A>, A>, AllocError>
    ensures { IfOk result (λ v. v.items ≡ map (λ s. s.0) (creations (program_of program.now).commands)) }
{
    let mut names = Vec::new(alloc);
    for number in 0..program.session_count() {
        let Some((name, _)) = program.session_at(number) else {
            return Err(AllocError);
        };
        names.push(name.copy_into(alloc)?)?;
    }
    Ok(names)
}

/// The picture of the program's run by a plan.
///
/// # Errors
///
/// AllocError where memory was refused.
pub fn picture_of<A: Allocator + Copy>(
    alloc: A,
    program: &Program<A>,
    plan: &Plan<'_, A>,
) -> Result<Picture<A>, AllocError>
    ensures { let p = program_of program.now in
        IfOk result (λ v. picture_seen v ≡ picture_of p (plan_picks p plan.now)) }
{
    let sessions = names_of(alloc, program)?;
    let rows = rows_of(alloc, program, plan)?;
    let lives = lives_of(alloc, program.entries().len(), &rows)?;
    Ok(Picture {
        sessions,
        lives,
        rows,
    })
}
