// One line of a session.
ghost use Rattle.std.specs.Prelude.{◌≡◌, ◌++◌, ◌∷◌, [], OnOk};
ghost use Rattle.def_explain.specs.Accounts.{said, tells, differs_uncounted};
ghost use Rattle.tn_difference.specs.Differences.{difference_seen};
ghost use Rattle.tn_term.specs.Views.{tree_of};
ghost use Rattle.tn_session.specs.Messages.{message_seen};
ghost use Rattle.tn_text.specs.Writes.{Grows};
ghost use Rattle.tn_command_reason.specs.CommandReasons.{command_reasons_seen};
ghost use Rattle.tn_explain.specs.CommandDifferences.{differences_seen};
ghost use Rattle.tn_explain.specs.LineParts.{reply_lines, uncounted_lines};
ghost use Rattle.tn_explain.specs.Lines.{PutsLines, Adds, line_start};

use std::alloc::{AllocError, Allocator};
use tn_command_reason::{CommandReason, put_reason_after_reply};
use tn_difference::{Difference, put_difference};
use tn_session::Message;
use tn_term::{Atom, Term};
use tn_text::{write_atom, write_term};

/// The lines of the session of a name.
#[derive(Drop)]
pub(crate) struct Lines<'a, A: Allocator> {
    /// For what is evaluated, and for texts that are kept for a while.
    pub alloc: A,
    pub name: &'a Atom<A>,
}

/// Appends a text.
pub(crate) fn put_text<A: Allocator>(text: &[u8], out: &mut Vec<u8, A>) -> Result<(), AllocError>
    ensures ok { OnOk result (out.new.items ≡ out.old.items ++ text.now) }
    ensures grows { Grows out.old.items out.new.items }
{
    out.extend_from_slice(text)
}

/// Appends what a line begins with: two blanks, the name and a colon.
pub(crate) fn begin<A: Allocator, B: Allocator>(
    name: &Atom<A>,
    out: &mut Vec<u8, B>,
) -> Result<(), AllocError>
    ensures ok { OnOk result (out.new.items ≡ out.old.items ++ line_start name.now) }
    ensures grows { Grows out.old.items out.new.items }
{
    out.extend_from_slice(b"  ")?;
    write_atom(name, out)?;
    out.extend_from_slice(b": ")
}

impl<A: Allocator> Lines<'_, A> {
    /// Appends the line of what is said.
    pub(crate) fn say(&self, text: &[u8], out: &mut Vec<u8, A>) -> Result<(), AllocError>
        ensures ok { OnOk result (Adds self.now (said text.now ∷ []) out.old out.new) }
        ensures grows { Grows out.old.items out.new.items }
    {
        begin(self.name, out)?;
        out.extend_from_slice(text)?;
        out.push(b'\n')?;
        Ok(())
    }

    /// Appends the line of a message that is reported.
    pub(crate) fn tell(
        &self,
        message: &Message<'_, A>,
        out: &mut Vec<u8, A>,
    ) -> Result<(), AllocError>
        ensures ok { OnOk result (Adds self.now (tells (message_seen message.now) ∷ []) out.old out.new) }
        ensures grows { Grows out.old.items out.new.items }
    {
        begin(self.name, out)?;
        out.extend_from_slice(b"=> ")?;
        message.append_text(out)?;
        out.push(b'\n')?;
        Ok(())
    }
}

/// Appends the line of the reply to a command of the session of this name, and why it is this one. After an `Err`,
/// which is refused memory, a part of it may stand there.
pub fn put_command_line<A: Allocator, B: Allocator>(
    name: &Atom<A>,
    reply: &Term<A>,
    why: Option<CommandReason<'_, A>>,
    out: &mut Vec<u8, B>,
) -> Result<(), AllocError>
    ensures ok { OnOk result (PutsLines name.now
        (reply_lines (tree_of reply.now) (command_reasons_seen why.entry)) out.old.items out.new.items) }
    ensures grows { Grows out.old.items out.new.items }
{
    begin(name, out)?;
    out.extend_from_slice(b"replies ")?;
    write_term(reply, out)?;
    put_reason_after_reply(why, out)?;
    out.push(b'\n')?;
    Ok(())
}

/// Appends the line of what a running node does otherwise, which no note counts.
fn put_uncounted<A: Allocator, B: Allocator>(
    name: &Atom<A>,
    difference: Difference,
    out: &mut Vec<u8, B>,
) -> Result<(), AllocError>
    ensures ok { OnOk result
        (PutsLines name.now (differs_uncounted (difference_seen difference) ∷ []) out.old.items out.new.items) }
    ensures grows { Grows out.old.items out.new.items }
{
    begin(name, out)?;
    put_difference(difference, out)?;
    out.push(b'\n')?;
    Ok(())
}

/// Appends the line of what a running node does otherwise by a command of the session of this name, where there is
/// such a thing. After an `Err`, which is refused memory, a part of it may stand there.
pub fn put_command_difference<A: Allocator, B: Allocator>(
    name: &Atom<A>,
    difference: Option<Difference>,
    out: &mut Vec<u8, B>,
) -> Result<(), AllocError>
    ensures ok { OnOk result
        (PutsLines name.now (uncounted_lines (differences_seen difference)) out.old.items out.new.items) }
    ensures grows { Grows out.old.items out.new.items }
{
    match difference {
        Some(difference) => put_uncounted(name, difference, out),
        None => Ok(()),
    }
}
