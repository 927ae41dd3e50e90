// A run here and on a running node, side by side.
ghost use Rattle.std.specs.Prelude.{◌≡◌, IfOk};
ghost use Rattle.tn_text.specs.Writes.{Grows};
ghost use Rattle.tn_running_node.specs.Comparisons.{PairsSee, PairsSeeOwnLink, PairsObey};
ghost use Rattle.def_running_node.specs.NodeComparisons.{own_link_event};
ghost use Rattle.tn_flags.specs.Views.{event_of};
ghost use Rattle.tn_process.specs.Outlooks.{own_link_seen};

use crate::lines::LineKinds;
use crate::node_run::NodeRun;
use crate::pair::{NodeStep, SessionPair, absent_pairs};
use std::alloc::{AllocError, Allocator};
use tn_flags::{Command, Event};
use tn_node::Outlook;
use tn_process::OwnLink;
use tn_program::Program;
use tn_script::Function;
use tn_term::Alive;
use tn_trace::absent_sessions;

/// The processes of a running node, and the sessions of the control list here and there.
#[derive(Drop)]
pub struct Comparison<A: Allocator> {
    alloc: A,
    run: NodeRun<A>,
    pairs: Vec<SessionPair<A>, A>,
}

/// Each pair of sessions sees an event, and the lines between them are appended.
fn see_each<A: Allocator + Copy>(
    alloc: A,
    pairs: &mut Vec<SessionPair<A>, A>,
    step: NodeStep<'_, A>,
    event: &Event<A>,
    out: &mut Vec<u8, A>,
) -> Result<LineKinds, AllocError>
    ensures ok { IfOk result (PairsSee step.entry event.now pairs.old.items pairs.new.items out.old out.new) }
    ensures grows { Grows out.old.items out.new.items }
{
    let mut kinds = LineKinds::none();
    for place in 0..pairs.len() {
        let one = pairs[place].see(alloc, step, event, out)?;
        kinds = kinds.join(one);
    }
    Ok(kinds)
}

/// The event of a link of a process with itself, or an unlink.
fn own_link_event<A: Allocator>(pid: u32, own_link: OwnLink) -> Event<A>
    ensures { event_of result ≡ own_link_event pid (own_link_seen own_link) }
{
    match own_link {
        OwnLink::Links => Event::Linked { pid, other: pid },
        OwnLink::Unlinks => Event::Unlinked { pid, other: pid },
    }
}

/// Each pair of sessions sees a link of a process with itself, or an unlink, and the lines of it are appended.
fn see_own_link_each<A: Allocator + Copy>(
    alloc: A,
    pairs: &mut Vec<SessionPair<A>, A>,
    run: &NodeRun<A>,
    event: &Event<A>,
    out: &mut Vec<u8, A>,
) -> Result<LineKinds, AllocError>
    ensures ok { IfOk result (PairsSeeOwnLink run.now event.now pairs.old.items pairs.new.items out.old out.new) }
    ensures grows { Grows out.old.items out.new.items }
{
    let mut kinds = LineKinds::none();
    for place in 0..pairs.len() {
        let one = pairs[place].see_own_link(alloc, run, event, out)?;
        kinds = kinds.join(one);
    }
    Ok(kinds)
}

/// The session that a command names does it here and on a node, and the lines between both replies are appended.
fn obey_each<A: Allocator + Copy>(
    alloc: A,
    pairs: &mut Vec<SessionPair<A>, A>,
    run: &NodeRun<A>,
    functions: &[Function<A>],
    command: &Command<A>,
    out: &mut Vec<u8, A>,
) -> Result<LineKinds, AllocError>
    ensures ok { IfOk result (PairsObey run.now functions.now command.now pairs.old pairs.new out.old out.new) }
    ensures grows { Grows out.old.items out.new.items }
{
    let mut kinds = LineKinds::none();
    for place in 0..pairs.len() {
        let one = pairs[place].obey(alloc, run, functions, command, out)?;
        kinds = kinds.join(one);
    }
    Ok(kinds)
}

impl<A: Allocator + Copy> Comparison<A> {
    ghost use Rattle.tn_running_node.specs.Comparisons.{ComparesOneEvent, ComparesEvents};
    ghost use Rattle.std.specs.Prelude.{IfOk};
    ghost use Rattle.std.specs.Option.{option_map};
    ghost use Rattle.def_script.specs.Exports.{exports_of};
    ghost use Rattle.def_running_node.specs.NodeComparisons.{comparison_at_start};
    ghost use Rattle.tn_program.specs.Views.{program_of};
    ghost use Rattle.tn_running_node.specs.Comparisons.{IsComparison};
    ghost use Rattle.tn_running_node.specs.Comparisons.{ComparesOwnLink, ComparesOneMove, ComparesCommand};

    /// The comparison of a program's sessions, or of that of a name alone, where one is given, before any move. An
    /// error is refused memory.
    pub fn new(
        alloc: A,
        program: &Program<A>,
        session: Option<&str>,
    ) -> Result<Comparison<A>, AllocError>
        ensures { IfOk result (IsComparison (exports_of (program_of program.now))
            (comparison_at_start (option_map (λ s. s.now) session.entry) (program_of program.now))) }
    {
        let slots = absent_sessions(alloc, program)?;
        let pairs = absent_pairs(alloc, slots, session)?;
        let run = NodeRun {
            alive: Alive::first(program.entries().len()),
            signals: Vec::new(alloc),
            ended: None,
            is_determined: true,
        };
        Ok(Comparison { alloc, run, pairs })
    }

    /// The session that a command names does it in a move of this pick, here and on a node, and the lines between both
    /// are appended. After an `Err`, which is refused memory, a part of them may stand there.
    pub fn obey(
        &mut self,
        pick: u32,
        functions: &[Function<A>],
        command: &Command<A>,
        out: &mut Vec<u8, A>,
    ) -> Result<LineKinds, AllocError>
        ensures ok { IfOk result (ComparesCommand pick functions.now command.now self.old self.new out.old out.new) }
        ensures grows { Grows out.old.items out.new.items }
    {
        self.run.begin_move(pick);
        let kinds = obey_each(
            self.alloc,
            &mut self.pairs,
            &self.run,
            functions,
            command,
            out,
        )?;
        Ok(kinds)
    }

    /// All sessions see an event of a step, and the lines between them are appended. After an `Err`, which is refused
    /// memory, a part of them may stand there.
    fn see_event(
        &mut self,
        outlook: Outlook,
        event: &Event<A>,
        out: &mut Vec<u8, A>,
    ) -> Result<LineKinds, AllocError>
        ensures ok { IfOk result (ComparesOneEvent outlook event.now self.old self.new out.old out.new) }
        ensures grows { Grows out.old.items out.new.items }
    {
        let step = NodeStep {
            run: &self.run,
            outlook,
        };
        let kinds = see_each(self.alloc, &mut self.pairs, step, event, out)?;
        self.run.see(outlook, event)?;
        Ok(kinds)
    }

    /// All sessions see the events of a step, in order, and the lines between them are appended.
    fn see_events(
        &mut self,
        outlook: Outlook,
        events: &Vec<Event<A>, A>,
        out: &mut Vec<u8, A>,
    ) -> Result<LineKinds, AllocError>
        ensures ok { IfOk result (ComparesEvents outlook events.now.items self.old self.new out.old out.new) }
        ensures grows { Grows out.old.items out.new.items }
    {
        let mut kinds = LineKinds::none();
        for event in events {
            let one = self.see_event(outlook, event, out)?;
            kinds = kinds.join(one);
        }
        Ok(kinds)
    }

    /// A step without events: where it links the process with itself, or unlinks it from itself, the lines of that are
    /// appended.
    fn see_own_link(
        &mut self,
        pick: u32,
        outlook: Outlook,
        out: &mut Vec<u8, A>,
    ) -> Result<LineKinds, AllocError>
        ensures ok { IfOk result (ComparesOwnLink pick outlook self.old self.new out.old out.new) }
        ensures grows { Grows out.old.items out.new.items }
    {
        let Some(own_link) = outlook.own_link else {
            return Ok(LineKinds::none());
        };
        let event = own_link_event(pick, own_link);
        let kinds = see_own_link_each(self.alloc, &mut self.pairs, &self.run, &event, out)?;
        Ok(kinds)
    }

    /// All sessions see a step of the process of this pick, of which this was known before it: its events, in order.
    /// The lines between them are appended. After an `Err`, which is refused memory, a part of them may stand there.
    pub fn see_move(
        &mut self,
        pick: u32,
        outlook: Outlook,
        events: &Vec<Event<A>, A>,
        out: &mut Vec<u8, A>,
    ) -> Result<LineKinds, AllocError>
        ensures ok { IfOk result (ComparesOneMove pick outlook events.now.items self.old self.new out.old out.new) }
        ensures grows { Grows out.old.items out.new.items }
    {
        self.run.begin_move(pick);
        if events.is_empty() {
            let kinds = self.see_own_link(pick, outlook, out)?;
            return Ok(kinds);
        }
        let kinds = self.see_events(outlook, events, out)?;
        Ok(kinds)
    }
}
