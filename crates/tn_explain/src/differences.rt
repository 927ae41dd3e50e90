// What a running node does otherwise, line by line.
ghost use Rattle.std.specs.Prelude.{◌≡◌, ◌++◌, ◌∷◌, [], OnOk, None, map, option_to_list};
ghost use Rattle.std.specs.Option.{option_map};
ghost use Rattle.def_session.specs.Session.{is_marked_for_exceptions};
ghost use Rattle.def_explain.specs.Accounts.{differs};
ghost use Rattle.def_explain.specs.Differences.{difference_where};
ghost use Rattle.tn_flags.specs.Views.{event_of};
ghost use Rattle.tn_session.specs.Looks.{look_seen};
ghost use Rattle.tn_text.specs.Writes.{Grows};
ghost use Rattle.tn_difference.specs.Differences.{difference_seen};
ghost use Rattle.tn_explain.specs.LineParts.{differs_where, body_difference_line};
ghost use Rattle.tn_explain.specs.ClauseDifferences.{lines_with};
ghost use Rattle.tn_explain.specs.LineParts.{inherited_difference};
ghost use Rattle.tn_explain.specs.Lines.{Adds};

use crate::line::{Lines, begin};
use std::alloc::{AllocError, Allocator};
use tn_action::{Context, Effect};
use tn_difference::{Difference, body_differs, inherits_more, put_difference};
use tn_flags::{Event, Flags};
use tn_running_node::ClauseDifferences;
use tn_session::{Kind, Look};
use tn_spec::Dialect;

/// The flags of a process before an event and after it.
#[derive(Clone, Copy)]
pub(crate) struct Change {
    pub old: Flags,
    pub new: Flags,
}

/// A difference, where it is one.
pub(crate) fn difference_where(holds: bool, difference: Difference) -> Option<Difference>
    ensures { option_map difference_seen result ≡ difference_where holds (difference_seen difference) }
{
    if holds { Some(difference) } else { None }
}

/// Whether the frame of this depth is marked for exceptions.
pub(crate) fn is_for_exceptions<A: Allocator + Copy>(
    look: &Look<'_, A>,
    pid: u32,
    depth: usize,
) -> bool
    ensures { result ≡ is_marked_for_exceptions (look_seen look.now) pid depth }
{
    match look.mark_of(pid, depth) {
        Some(Kind::Exceptions) => true,
        Some(Kind::Returns) | None => false,
    }
}

/// What a node does otherwise at an event by which the second process inherits flags of the first.
pub(crate) fn inherited_difference<A: Allocator>(
    event: &Event<A>,
    giver: Change,
    taker: Change,
) -> Option<Difference>
    ensures { option_map difference_seen result ≡ inherited_difference (event_of event.now) giver taker }
{
    match event {
        Event::Spawned { .. } => {
            let holds = inherits_more(giver.old, taker.new);
            difference_where(holds, Difference::InheritsAlone)
        }
        _ => None,
    }
}

impl<A: Allocator + Copy> Lines<'_, A> {
    /// Appends the line of a difference.
    fn put_difference(&self, difference: Difference, out: &mut Vec<u8, A>) -> Result<(), AllocError>
        ensures ok { OnOk result (Adds self.now (differs (difference_seen difference) ∷ []) out.old out.new) }
        ensures grows { Grows out.old.items out.new.items }
    {
        begin(self.name, out)?;
        put_difference(difference, out)?;
        out.push(b'\n')?;
        Ok(())
    }

    /// Appends the line of a difference, where it is one.
    pub(crate) fn put_where_differs(
        &self,
        holds: bool,
        difference: Difference,
        out: &mut Vec<u8, A>,
    ) -> Result<(), AllocError>
        ensures ok { OnOk result (Adds self.now (differs_where holds (difference_seen difference)) out.old out.new) }
        ensures grows { Grows out.old.items out.new.items }
    {
        if holds {
            self.put_difference(difference, out)
        } else {
            Ok(())
        }
    }

    /// Appends the line of the difference at an event, where there is one.
    pub(crate) fn put_event_difference(
        &self,
        difference: Option<Difference>,
        out: &mut Vec<u8, A>,
    ) -> Result<(), AllocError>
        ensures ok { OnOk result
            (Adds self.now (map differs (option_to_list (option_map difference_seen difference))) out.old out.new) }
        ensures grows { Grows out.old.items out.new.items }
    {
        match difference {
            Some(difference) => self.put_difference(difference, out),
            None => Ok(()),
        }
    }

    /// Appends the line of a difference at a clause that fires, where it is one.
    fn put_body_difference(
        &self,
        difference: Difference,
        dialect: Dialect,
        context: &Context<'_, '_, A>,
        effects: &[Effect<'_, A>],
        out: &mut Vec<u8, A>,
    ) -> Result<(), AllocError>
        ensures ok { OnOk result
            (Adds self.now (body_difference_line difference dialect context.now effects.now) out.old out.new) }
        ensures grows { Grows out.old.items out.new.items }
    {
        let holds = body_differs(difference, dialect, context, effects);
        self.put_where_differs(holds, difference, out)
    }

    /// Appends a line for each that a node does otherwise at a clause that fires.
    pub(crate) fn put_differences(
        &self,
        of_clause: ClauseDifferences,
        dialect: Dialect,
        context: &Context<'_, '_, A>,
        effects: &[Effect<'_, A>],
        out: &mut Vec<u8, A>,
    ) -> Result<(), AllocError>
        ensures ok { OnOk result
            (Adds self.now (lines_with of_clause dialect context.now effects.now) out.old out.new) }
        ensures grows { Grows out.old.items out.new.items }
    {
        self.put_where_differs(of_clause.order, Difference::EvaluatesFromRight, out)?;
        self.put_where_differs(of_clause.logic, Difference::FaultsInLogic, out)?;
        self.put_where_differs(of_clause.list, Difference::ReadsNoList, out)?;
        self.put_body_difference(Difference::NodeEnds, dialect, context, effects, out)?;
        self.put_body_difference(Difference::ReadsFreed, dialect, context, effects, out)?;
        self.put_body_difference(
            Difference::SuppressesMessage,
            dialect,
            context,
            effects,
            out,
        )?;
        self.put_body_difference(Difference::LeavesNoMark, dialect, context, effects, out)?;
        self.put_body_difference(Difference::IgnoresSilent, dialect, context, effects, out)
    }
}
