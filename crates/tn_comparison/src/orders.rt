// Those messages of a trace that are in an order.
ghost use Rattle.std.specs.Prelude.{◌≡◌, ◌++◌, ◌∷◌, [], IfOk, OnOk, filter, map};
ghost use Rattle.def_compare.specs.Traces.{orders_in, trace_processes, with_process};
ghost use Rattle.def_explore.specs.Rests.{is_of_process, message_process};
ghost use Rattle.tn_comparison.specs.Orders.{AreTraceOrders};
ghost use Rattle.tn_messages.specs.MessageViews.{kept_seen};
ghost use Rattle.tn_renaming.specs.Pairs.{lent_term_seen, lent_terms_seen};
ghost use Rattle.tn_term.specs.Views.{tree_of};

use crate::lists::TermList;
use std::alloc::{AllocError, Allocator};
use tn_messages::{KeptListings, is_of_process, message_process};
use tn_term::Term;

/// Those messages of a trace that are in an order: all of them, and those of each process.
#[derive(Drop)]
pub(crate) struct TraceOrders<'m, P: Allocator, A: Allocator> {
    all: Vec<TermList<'m, P, A>, A>,
    by_process: Vec<TermList<'m, P, A>, A>,
}

/// Adds the process that a message is of, unless it is there.
fn add_process<P: Allocator, A: Allocator>(
    message: &Term<P>,
    processes: &mut Vec<u32, A>,
) -> Result<(), AllocError>
    ensures { let process = message_process (tree_of message.now) in
        OnOk result (processes.new.items ≡ with_process processes.old.items process) }
{
    let Some(pid) = message_process(message) else {
        return Ok(());
    };
    if processes.contains(&pid) {
        return Ok(());
    }
    processes.push(pid)?;
    Ok(())
}

/// The processes that messages are of, by the first message of each.
fn trace_processes<P: Allocator, A: Allocator + Copy>(
    alloc: A,
    messages: &[Term<P>],
) -> Result<Vec<u32, A>, AllocError>
    ensures { IfOk result (λ v. v.items ≡ trace_processes (map tree_of messages.now)) }
{
    let mut processes = Vec::new(alloc);
    for message in messages {
        add_process(message, &mut processes)?;
    }
    Ok(processes)
}

/// All messages.
pub(crate) fn all_of<'m, P: Allocator, A: Allocator + Copy>(
    alloc: A,
    messages: &'m [Term<P>],
) -> Result<TermList<'m, P, A>, AllocError>
    ensures { IfOk result (λ v. lent_terms_seen v ≡ map tree_of messages.now) }
{
    let mut terms = Vec::with_capacity(alloc, messages.len())?;
    for message in messages {
        terms.push(message)?;
    }
    Ok(terms)
}

/// Adds a message, where it is of this process.
fn add_message<'m, P: Allocator, A: Allocator>(
    pid: u32,
    message: &'m Term<P>,
    terms: &mut TermList<'m, P, A>,
) -> Result<(), AllocError>
    ensures { OnOk result (lent_terms_seen terms.new ≡
        lent_terms_seen terms.old ++ filter (is_of_process pid) (tree_of message.now ∷ [])) }
{
    if !is_of_process(pid, message) {
        return Ok(());
    }
    terms.push(message)?;
    Ok(())
}

/// Those of some messages that are of a process.
pub(crate) fn messages_of_process<'m, P: Allocator, A: Allocator + Copy>(
    alloc: A,
    pid: u32,
    messages: &[&'m Term<P>],
) -> Result<TermList<'m, P, A>, AllocError>
    ensures { IfOk result (λ v. lent_terms_seen v ≡ filter (is_of_process pid) (map lent_term_seen messages.now)) }
{
    let mut terms = Vec::new(alloc);
    for message in messages {
        add_message(pid, message, &mut terms)?;
    }
    Ok(terms)
}

/// The messages of each of these processes.
fn messages_of_each<'m, P: Allocator, A: Allocator + Copy>(
    alloc: A,
    processes: &[u32],
    messages: &[&'m Term<P>],
) -> Result<Vec<TermList<'m, P, A>, A>, AllocError>
    ensures { let ms = map lent_term_seen messages.now in
        IfOk result (λ v. map lent_terms_seen v.items ≡ map (λ n. filter (is_of_process n) ms) processes.now) }
{
    let mut orders = Vec::with_capacity(alloc, processes.len())?;
    for pid in processes {
        orders.push(messages_of_process(alloc, *pid, messages)?)?;
    }
    Ok(orders)
}

impl<'m, P: Allocator, A: Allocator + Copy> TraceOrders<'m, P, A> {
    ghost use Rattle.std.specs.Prelude.{◌≡◌, List, IfOk, map};
    ghost use Rattle.def_term.specs.Tree.{Tree};
    ghost use Rattle.def_compare.specs.Traces.{orders_in};
    ghost use Rattle.tn_comparison.specs.Orders.{AreTraceOrders};
    ghost use Rattle.tn_messages.specs.MessageViews.{kept_seen};
    ghost use Rattle.tn_renaming.specs.Pairs.{lent_terms_seen};
    ghost use Rattle.tn_term.specs.Views.{tree_of};

    /// Those of some messages.
    pub(crate) fn of(alloc: A, messages: &'m [Term<P>]) -> Result<TraceOrders<'m, P, A>, AllocError>
        ensures { IfOk result (AreTraceOrders (map tree_of messages.now)) }
    {
        let list = all_of(alloc, messages)?;
        let processes = trace_processes(alloc, messages)?;
        let by_process = messages_of_each(alloc, &processes, &list)?;
        let mut all = Vec::new(alloc);
        all.push(list)?;
        Ok(TraceOrders { all, by_process })
    }

    /// Those that are in an order as what is kept is.
    pub(crate) fn like(&self, kept: &KeptListings<A>) -> &[TermList<'m, P, A>]
        ensures { (ms : List Tree) → AreTraceOrders ms self.now →
            map lent_terms_seen result.now ≡ orders_in (kept_seen kept.now) ms }
    {
        match kept {
            KeptListings::Total(_) => &self.all,
            KeptListings::ByProcess(_) => &self.by_process,
        }
    }
}
