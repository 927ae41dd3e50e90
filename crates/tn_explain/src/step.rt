// The lines of one move.
ghost use Rattle.std.specs.Prelude.{◌≡◌, ◌++◌, ◌∷◌, OnOk, decimal};
ghost use Rattle.tn_text.specs.Writes.{Grows};

use crate::item_text::{put_command, put_event};
use crate::selection::Selection;
use std::alloc::{AllocError, Allocator};
use tn_flags::{Command, Event};
use tn_node::Outlook;
use tn_term::Atom;
use tn_text::write_decimal;

/// A move that is written of: its number from 1, its pick, what is known of its step before it, and what is selected of
/// the run.
#[derive(Clone, Copy)]
pub(crate) struct Step<'a> {
    pub selection: &'a Selection<'a>,
    pub number: u64,
    pub pick: u32,
    pub outlook: Outlook,
}

/// Appends a move's number and its pick. After an `Err` a part of them may stand there.
fn put_numbers<B: Allocator>(number: u64, pick: u32, out: &mut Vec<u8, B>) -> Result<(), AllocError>
    ensures ok { OnOk result (out.new.items ≡ out.old.items ++ (decimal number ++ 32 ∷ decimal pick)) }
    ensures grows { Grows out.old.items out.new.items }
{
    write_decimal(number, out)?;
    out.push(b' ')?;
    write_decimal(pick, out)
}

impl Step<'_> {
    ghost use Rattle.tn_explain.specs.Filters.{is_asked, text_of_event, text_of_command, text_of_nothing};

    /// Whether it is asked for what the session of this name makes of it.
    pub fn is_asked_of<A: Allocator>(&self, name: &Atom<A>) -> bool
        ensures { result ≡ is_asked self.now name.now }
    {
        self.selection.selects(self.number) && self.selection.is_session(name)
    }

    /// Appends the line of a command that the move shows, where the move is asked for.
    pub fn put_command<A: Allocator, B: Allocator>(
        &self,
        command: &Command<A>,
        out: &mut Vec<u8, B>,
    ) -> Result<(), AllocError>
        ensures ok { OnOk result (out.new.items ≡ out.old.items ++ text_of_command self.now command.now) }
        ensures grows { Grows out.old.items out.new.items }
    {
        if !self.selection.selects(self.number) {
            return Ok(());
        }
        put_numbers(self.number, self.pick, out)?;
        put_command(command, out)?;
        out.push(b'\n')?;
        Ok(())
    }

    /// Appends the line of an event that the move shows, where the move is asked for.
    pub fn put_event<A: Allocator + Copy>(
        &self,
        alloc: A,
        event: &Event<A>,
        out: &mut Vec<u8, A>,
    ) -> Result<(), AllocError>
        ensures ok { OnOk result (out.new.items ≡ out.old.items ++ text_of_event self.now event.now) }
        ensures grows { Grows out.old.items out.new.items }
    {
        if !self.selection.selects(self.number) {
            return Ok(());
        }
        put_numbers(self.number, self.pick, out)?;
        put_event(alloc, event, out)?;
        out.push(b'\n')?;
        Ok(())
    }

    /// Appends that the move shows nothing, where it is asked for.
    pub fn put_nothing<B: Allocator>(&self, out: &mut Vec<u8, B>) -> Result<(), AllocError>
        ensures ok { OnOk result (out.new.items ≡ out.old.items ++ text_of_nothing self.now) }
        ensures grows { Grows out.old.items out.new.items }
    {
        if !self.selection.selects(self.number) {
            return Ok(());
        }
        put_numbers(self.number, self.pick, out)?;
        out.extend_from_slice(b" nothing\n")
    }
}
