// The account of a run.
ghost use Rattle.std.specs.Prelude.{◌≡◌, ◌++◌, IfOk, OnOk, OnErr};
ghost use Rattle.std.specs.Option.{option_map};
ghost use Rattle.def_message_choice.specs.ChosenAccounts.{move_of_number, text_of_number};
ghost use Rattle.tn_program.specs.Views.{program_of};
ghost use Rattle.tn_text.specs.Writes.{Grows};
ghost use Rattle.tn_moves.specs.Plans.{plan_picks};
ghost use Rattle.tn_explain.specs.Filters.{account_of, selected_of, node_moves_of};
ghost use Rattle.tn_explain.specs.Filters.{chosen_moves_of, number_move_of, asked_of, selection_seen};

use crate::explainer::Explainer;
use crate::filter::Filter;
use crate::message_explainer::MessageExplainer;
use crate::node_explainer::NodeExplainer;
use crate::selection::Selection;
use std::alloc::{AllocError, Allocator};
use tn_message_choice::{Choosers, MessageChoice, MessageFilter, move_of_message};
use tn_moves::{Plan, drive};
use tn_program::Program;
use tn_running_node::Comparison;

/// Appends the text of what is selected; after an `Err` a part of it may stand there.
fn put_moves<A: Allocator + Copy>(
    alloc: A,
    program: &Program<A>,
    plan: &Plan<'_, A>,
    selection: &Selection<'_>,
    out: &mut Vec<u8, A>,
) -> Result<(), AllocError>
    ensures ok { let picks = plan_picks (program_of program.now) plan.now in
        OnOk result (out.new.items ≡ out.old.items ++ selected_of selection.now program.now picks) }
    ensures grows { Grows out.old.items out.new.items }
{
    let explainer = Explainer::new(alloc, program, selection)?;
    drive(alloc, program, plan, explainer, out)?;
    Ok(())
}

/// Appends the text of what is selected of the moves that a running node does otherwise; after an `Err` a part of it
/// may stand there.
fn put_node_moves<A: Allocator + Copy>(
    alloc: A,
    program: &Program<A>,
    plan: &Plan<'_, A>,
    selection: &Selection<'_>,
    out: &mut Vec<u8, A>,
) -> Result<(), AllocError>
    ensures ok { let picks = plan_picks (program_of program.now) plan.now in
        OnOk result (out.new.items ≡ out.old.items ++ node_moves_of selection.now program.now picks) }
    ensures grows { Grows out.old.items out.new.items }
{
    let explainer = Explainer::new(alloc, program, selection)?;
    let comparison = Comparison::new(alloc, program, selection.session)?;
    let observer = NodeExplainer {
        explainer,
        comparison,
    };
    drive(alloc, program, plan, observer, out)?;
    Ok(())
}

/// Appends the account, where the filter may ask only for the moves that a running node does otherwise; after an
/// `Err` a part of it may stand there.
fn put_filtered<A: Allocator + Copy>(
    alloc: A,
    program: &Program<A>,
    plan: &Plan<'_, A>,
    filter: &Filter<'_>,
    out: &mut Vec<u8, A>,
) -> Result<(), AllocError>
    ensures ok { let picks = plan_picks (program_of program.now) plan.now in
        OnOk result (out.new.items ≡ out.old.items ++ account_of filter.now program.now picks) }
    ensures grows { Grows out.old.items out.new.items }
{
    let selection = Selection {
        session: filter.session,
        move_number: filter.move_number,
    };
    if filter.node {
        put_node_moves(alloc, program, plan, &selection, out)
    } else {
        put_moves(alloc, program, plan, &selection, out)
    }
}

/// Appends the account of the program's run by a plan. After an `Err`, which is refused memory, the vector is
/// as it was.
///
/// # Errors
///
/// AllocError where memory was refused.
pub fn put_account<A: Allocator + Copy>(
    alloc: A,
    program: &Program<A>,
    plan: &Plan<'_, A>,
    filter: &Filter<'_>,
    out: &mut Vec<u8, A>,
) -> Result<(), AllocError>
    ensures ok { let picks = plan_picks (program_of program.now) plan.now in
        OnOk result (out.new.items ≡ out.old.items ++ account_of filter.now program.now picks) }
    ensures err { OnErr result (out.new.items ≡ out.old.items) }
{
    let len = out.len();
    let done = put_filtered(alloc, program, plan, filter, out);
    if done.is_err() {
        out.truncate(len);
    }
    done
}

/// Appends the text of what is selected of the moves that are chosen by a message; after an `Err` a part of it may
/// stand there.
fn put_chosen_moves<'a, A: Allocator + Copy>(
    alloc: A,
    program: &Program<A>,
    plan: &Plan<'_, A>,
    selection: &Selection<'a>,
    choice: MessageChoice<'a>,
    out: &mut Vec<u8, A>,
) -> Result<(), AllocError>
    ensures { let picks = plan_picks (program_of program.now) plan.now in
        OnOk result (out.new.items ≡ out.old.items ++ chosen_moves_of choice.entry selection.now program.now picks) }
{
    let explainer = Explainer::new(alloc, program, selection)?;
    let choosers = Choosers::new(alloc, program)?;
    let observer = MessageExplainer {
        explainer,
        choice,
        choosers,
    };
    drive(alloc, program, plan, observer, out)?;
    Ok(())
}

/// The number of the move at which the session of this name sends its message of a number; None where it sends fewer,
/// or no name is given.
fn message_move<A: Allocator + Copy>(
    alloc: A,
    program: &Program<A>,
    plan: &Plan<'_, A>,
    session: Option<&str>,
    number: u64,
) -> Result<Option<u64>, AllocError>
    ensures { let p = program_of program.now in let name = option_map (λ s. s.now) session.entry in
        IfOk result (λ m. m ≡ move_of_number number name p (plan_picks p plan.now)) }
{
    match session {
        Some(session) => move_of_message(alloc, program, plan, session, number),
        None => Ok(None),
    }
}

/// Appends the text of the move of this number, where there is one and it is selected; after an `Err` a part of it may
/// stand there.
fn put_found_move<A: Allocator + Copy>(
    alloc: A,
    program: &Program<A>,
    plan: &Plan<'_, A>,
    selection: &Selection<'_>,
    found: Option<u64>,
    out: &mut Vec<u8, A>,
) -> Result<(), AllocError>
    ensures { let p = program_of program.now in let text =
        text_of_number (selection_seen selection.now) p (plan_picks p plan.now) found in
        OnOk result (out.new.items ≡ out.old.items ++ text) }
{
    let Some(number) = found else {
        return Ok(());
    };
    if !selection.selects(number) {
        return Ok(());
    }
    let selection = Selection {
        session: selection.session,
        move_number: Some(number),
    };
    put_moves(alloc, program, plan, &selection, out)
}

/// Appends the text of the move at which the session that is selected sends its message of a number, where it is
/// selected; after an `Err` a part of it may stand there.
fn put_number_move<A: Allocator + Copy>(
    alloc: A,
    program: &Program<A>,
    plan: &Plan<'_, A>,
    selection: &Selection<'_>,
    number: u64,
    out: &mut Vec<u8, A>,
) -> Result<(), AllocError>
    ensures { let picks = plan_picks (program_of program.now) plan.now in
        OnOk result (out.new.items ≡ out.old.items ++ number_move_of number selection.now program.now picks) }
{
    let found = message_move(alloc, program, plan, selection.session, number)?;
    put_found_move(alloc, program, plan, selection, found, out)
}

/// Appends the account, or where a message is asked for that of the moves that are asked for by it; after an `Err` a
/// part of it may stand there.
pub(crate) fn put_asked<'a, A: Allocator + Copy>(
    alloc: A,
    program: &Program<A>,
    plan: &Plan<'_, A>,
    filter: &Filter<'a>,
    message: Option<MessageFilter<'a>>,
    out: &mut Vec<u8, A>,
) -> Result<(), AllocError>
    ensures { let picks = plan_picks (program_of program.now) plan.now in
        OnOk result (out.new.items ≡ out.old.items ++ asked_of filter.now message.entry program.now picks) }
{
    let Some(message) = message else {
        return put_account(alloc, program, plan, filter, out);
    };
    let selection = Selection {
        session: filter.session,
        move_number: filter.move_number,
    };
    match message {
        MessageFilter::Choice(choice) => {
            put_chosen_moves(alloc, program, plan, &selection, choice, out)
        }
        MessageFilter::Number(number) => {
            put_number_move(alloc, program, plan, &selection, number, out)
        }
    }
}
