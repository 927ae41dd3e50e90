// A run by a plan, whatever looks on.
ghost use Rattle.std.specs.Prelude.{◌≡◌, [], IfOk};
ghost use Rattle.def_run.specs.Run.{moves};
ghost use Rattle.tn_program.specs.Views.{program_of};
ghost use Rattle.tn_trace.specs.Within.{TakesWithin};
ghost use Rattle.tn_moves.specs.Drives.{IsDriven, IsDrivenThrough, tries_for, tries_of, tries_of_plan};
ghost use Rattle.tn_moves.specs.Plans.{plan_picks};

use crate::directive::Directive;
use crate::plan::Plan;
use std::alloc::{AllocError, Allocator};
use tn_program::Program;
use tn_trace::{Bound, Extent, NoBound, Nobody, Observer, Run, most_moves, pass_picks};

/// What is tried for a directive: the picks of a pass, and how often some are tried until nothing moves.
#[derive(Clone, Copy)]
struct Tries<'a> {
    pass: &'a [u32],
    most: usize,
}

/// Takes the picks of a directive.
fn take_directive<A: Allocator + Copy, O: Observer<A> + Drop, B: Bound<O>>(
    program: &Program<A>,
    directive: Directive,
    tries: Tries<'_>,
    bound: &B,
    run: &mut Run<A, O>,
    out: &mut O::Output,
) -> Result<Extent, AllocError>
    ensures taken { TakesWithin O.sees O.adds (B.exceeds bound.now) program.now (tries_for tries.entry directive)
        run.old run.new out.old out.new result }
    ensures reaches { O.reaches out.old out.new }
{
    let Tries { pass, most } = tries;
    match directive {
        Directive::Times { count, pick } => {
            run.take_times(program, &[pick], count as usize, bound, out)
        }
        Directive::UntilIdle(pick) => run.take_times(program, &[pick], most, bound, out),
        Directive::Everybody => run.take_times(program, pass, most, bound, out),
    }
}

/// Takes the picks of directives, in order, until the observer has more than it may have.
fn take_directives<A: Allocator + Copy, O: Observer<A> + Drop, B: Bound<O>>(
    program: &Program<A>,
    directives: &[Directive],
    tries: Tries<'_>,
    bound: &B,
    run: &mut Run<A, O>,
    out: &mut O::Output,
) -> Result<Extent, AllocError>
    ensures taken { TakesWithin O.sees O.adds (B.exceeds bound.now) program.now (tries_of tries.entry directives.now)
        run.old run.new out.old out.new result }
    ensures reaches { O.reaches out.old out.new }
{
    for directive in directives {
        match take_directive(program, *directive, tries, bound, run, out)? {
            Extent::All => {}
            Extent::TooMuch => return Ok(Extent::TooMuch),
        }
    }
    Ok(Extent::All)
}

/// Takes the picks of a plan, until the observer has more than it may have.
fn take_plan<A: Allocator + Copy, O: Observer<A> + Drop, B: Bound<O>>(
    program: &Program<A>,
    plan: &Plan<'_, A>,
    tries: Tries<'_>,
    bound: &B,
    run: &mut Run<A, O>,
    out: &mut O::Output,
) -> Result<Extent, AllocError>
    ensures taken { TakesWithin O.sees O.adds (B.exceeds bound.now) program.now (tries_of_plan tries.entry plan.now)
        run.old run.new out.old out.new result }
    ensures reaches { O.reaches out.old out.new }
{
    match plan {
        Plan::Picks(picks) => run.take_within(program, picks, bound, out),
        Plan::Directives { directives, .. } => {
            take_directives(program, directives, tries, bound, run, out)
        }
    }
}

/// The run of a program by a plan, on which this observer looks, and whether it has more than it may have before the
/// plan's end. The observer is as it is before any pick, and the node takes each step once.
///
/// # Errors
///
/// AllocError where memory was refused. A part of what the observer makes of the picks may be added then.
pub fn drive_within<A: Allocator + Copy, O: Observer<A> + Drop, B: Bound<O>>(
    alloc: A,
    program: &Program<A>,
    plan: &Plan<'_, A>,
    observer: O,
    bound: &B,
    out: &mut O::Output,
) -> Result<(Run<A, O>, Extent), AllocError>
    requires start { O.sees observer (program_of program.now) [] }
    requires few { B.exceeds bound.now observer → ⊥ }
    ensures driven { let p = program_of program.now in IfOk result (λ r.
        IsDriven O.sees O.adds (B.exceeds bound.now) p (moves p (plan_picks p plan.now))
        observer r.0 out.old out.new r.1) }
    ensures reaches { O.reaches out.old out.new }
{
    let limit = plan.limit() as usize;
    let pass = pass_picks(alloc)?;
    let tries = Tries {
        pass: &pass,
        most: most_moves(limit) + 1,
    };
    let mut run = Run::new(alloc, program, observer, limit)?;
    let extent = take_plan(program, plan, tries, bound, &mut run, out)?;
    Ok((run, extent))
}

/// The same to the plan's end.
///
/// # Errors
///
/// AllocError where memory was refused. A part of what the observer makes of the picks may be added then.
pub fn drive<A: Allocator + Copy, O: Observer<A> + Drop>(
    alloc: A,
    program: &Program<A>,
    plan: &Plan<'_, A>,
    observer: O,
    out: &mut O::Output,
) -> Result<Run<A, O>, AllocError>
    requires start { O.sees observer (program_of program.now) [] }
    ensures driven { let p = program_of program.now in IfOk result (λ r.
        IsDrivenThrough O.sees O.adds p (plan_picks p plan.now) observer r out.old out.new) }
    ensures reaches { O.reaches out.old out.new }
{
    let (run, _) = drive_within(alloc, program, plan, observer, &NoBound, out)?;
    Ok(run)
}

/// The picks of a plan in a run of the program that move.
///
/// # Errors
///
/// AllocError where memory was refused.
pub fn moves_of_plan<A: Allocator + Copy>(
    alloc: A,
    program: &Program<A>,
    plan: &Plan<'_, A>,
) -> Result<Vec<u32, A>, AllocError>
    ensures { let p = program_of program.now in IfOk result (λ v. v.items ≡ moves p (plan_picks p plan.now)) }
{
    let run = drive(alloc, program, plan, Nobody, &mut ())?;
    Ok(run.into_journal())
}
