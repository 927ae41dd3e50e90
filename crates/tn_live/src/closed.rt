// A journal to which nothing is added any more.
use crate::entry::{Entry, Receipt};
use crate::prefix::JournalName;
use crate::record::Record;
use std::alloc::Allocator;
use std::marker::Model;
use tn_program::{Program, Sessions};
use tn_text::WrittenTerm;

/// A closed journal, with the listings and the replies of its picks.
#[derive(Drop)]
pub struct Closed<A: Allocator, J: JournalName> {
    pub(crate) record: Record<A, J>,
}

impl<A: Allocator, J: JournalName> Model for Closed<A, J> {
    ghost use Rattle.std.specs.Prelude.{List};
    ghost use Rattle.tn_live.specs.declared.entry.Entry.{Entry};
    ghost use Rattle.tn_live.specs.Records.{IsRecord};

    ghost Value = { List Entry };

    ghost view = { λ c. c.record.entries.items };

    ghost invariant = { λ c. IsRecord J.program c.record };
}

impl<A: Allocator + Copy, J: JournalName> Closed<A, J> {
    ghost use Rattle.std.specs.Prelude.{◌≡◌, IsTrue, ◌↔◌, map};
    ghost use Rattle.def_script.specs.Script.{creations};
    ghost use Rattle.def_run.specs.Listing.{replies};
    ghost use Rattle.tn_text.specs.WrittenTrees.{written_tree};
    ghost use Rattle.tn_program.specs.Views.{program_of};
    ghost use Rattle.tn_trace.specs.Cores.{Lists};
    ghost use Rattle.tn_live.specs.Journal.{picks_of};
    ghost use Rattle.tn_live.specs.States.{IsJournal};
    ghost use Rattle.tn_live.specs.ClosedJournals.{Confirms};

    /// The entries, in order, each with its seat and pick. Each pick moved.
    pub fn journal(&self) -> &[Entry]
        ensures entries { result.now ≡ self.now }
        ensures moved { IsJournal J.program result.now }
    {
        &self.record.entries
    }

    /// The program.
    pub fn program(&self) -> &Program<A>
        ensures { program_of result.now ≡ J.program }
    {
        self.record.core.program()
    }

    /// The name and the tracer of each session, in the control list's order. It takes no memory.
    pub fn sessions(&self) -> Sessions<'_, A>
        ensures { result ≡ creations J.program.commands }
    {
        self.record.core.sessions()
    }

    /// The messages of the session with this number, from 1, in order, each beside its text; None for another number.
    pub fn listing(&self, session: u32) -> Option<&[WrittenTerm<A>]>
        ensures { Lists J.program (picks_of self.now) session result }
    {
        match self.record.core.listing(session) {
            Ok(listing) => listing,
            Err(_) => None,
        }
    }

    /// The replies to the commands that were taken, in order, each beside its text.
    pub fn replies(&self) -> &[WrittenTerm<A>]
        ensures { map written_tree result.now ≡ replies J.program (picks_of self.now) }
    {
        match self.record.core.replies() {
            Ok(replies) => replies,
            Err(_) => &[],
        }
    }

    /// Whether the receipt is of this journal: the entry at its number has its seat and pick, and the
    /// answer there its items. It takes no memory.
    pub fn confirm(&self, receipt: &Receipt<A>) -> bool
        ensures { IsTrue result ↔ Confirms J.program self.now receipt.now }
    {
        self.record.confirms(receipt)
    }
}
