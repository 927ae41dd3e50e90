// Beginnings of one log that only grows. The log exists in proofs alone: a front has no bytes, and the
// head is the log's length.
ghost use Rattle.std.specs.Prelude.{◌≡◌, ◌≤◌, ◌<◌, ◌^◌, ◌++◌, ◌∷◌, [], length, IsTrue};
ghost use mathlib.Core.List.{IsPrefix};
ghost use Rattle.tn_live.specs.Log.{log_head};

use crate::entry::Entry;
use logbook::{Gain, Offer, Plain, Play, Rule, Seen, Start, Word};
use std::marker::{Brand, Model, PhantomData};

/// The rule of the log: its first word is its length.
pub struct LogRule;

impl Rule<Entry, u64> for LogRule {
    ghost use Rattle.std.specs.Prelude.{[]};
    ghost use base.Fml.{ftrue};
    ghost use Rattle.tn_live.specs.Log.{IsLogOf};

    ghost holds = { λ cells log. IsLogOf cells log };

    ghost first = { [] };

    ghost hinted = { λ n log. Unit {0} };

    ghost shows = { λ log. [] };

    ghost keeps = { λ names log. ftrue };

    ghost moves = { λ ask before after answer. Unit {0} };
}

/// Callers trade nothing.
pub struct NoGain;

impl Gain<Entry, u64> for NoGain {
    ghost use base.Fml.{ftrue};

    ghost after = { λ names about answer. ftrue };
}

/// A step that adds an entry.
pub struct AddEntry;

impl Play<Entry, u64> for AddEntry {
    ghost use Rattle.tn_live.specs.Log.{AddsToLog};

    ghost then = { AddsToLog };
}

impl Plain<Entry, Entry, u64> for AddEntry {
    ghost use Rattle.std.specs.Prelude.{None};

    ghost ask = { λ entry. entry };

    ghost state = { λ entry. None };
}

/// The name of a lock: which log its journal is, and of which program. Each call that begins a journal
/// picks both.
pub trait JournalName {
    ghost use Rattle.logbook.specs.Pages.{Book};
    ghost use Rattle.def_script.specs.Program.{Program};

    ghost log: { Book };

    ghost program: { Program };
}

impl JournalName for Brand {
    ghost use Rattle.std.specs.Prelude.{[]};

    ghost log = { record { number = 0; log_name = 0; cells_name = 0 } };

    ghost program = { record { functions = []; entries = []; commands = [] } };
}

/// An empty log, which has no name yet.
#[derive(Drop)]
pub struct NewLog {
    head: Word<Entry, u64, LogRule>,
    seen: Seen<Entry, u64, LogRule>,
}

impl Model for NewLog {
    ghost use Rattle.std.specs.Prelude.{◌≡◌, []};
    ghost use Rattle.logbook.specs.Pages.{Book};
    ghost use Rattle.tn_live.specs.Log.{log_head};

    ghost Value = { Book };

    ghost view = { λ o. o.seen.book };

    ghost invariant = { λ o. (o.head ≡ log_head o.seen.book) × (o.seen.log ≡ []) };
}

impl NewLog {
    /// A new log, as empty as the journal that is to begin. It takes no memory.
    pub fn new() -> NewLog {
        let (seen, mut first, _second) = Seen::open(Start::alone(), 0, 0);
        NewLog {
            head: Word::tracked(0, &mut first),
            seen,
        }
    }

    /// The log's head under a name, and the front that has seen nothing.
    pub(crate) fn under_name<J: JournalName>(self) -> (Head<J>, Prefix<J>)
        requires { self ≡ J.log }
        ensures { result.1 ≡ [] }
    {
        let NewLog { head, seen } = self;
        (
            Head {
                word: head,
                of: PhantomData,
            },
            Prefix {
                seen,
                of: PhantomData,
            },
        )
    }
}

/// The length of the log.
#[derive(Drop)]
pub(crate) struct Head<J: JournalName> {
    word: Word<Entry, u64, LogRule>,
    of: PhantomData<J>,
}

impl<J: JournalName> Model for Head<J> {
    ghost use Rattle.std.specs.Prelude.{◌≡◌};
    ghost use Rattle.logbook.specs.Pages.{Book};
    ghost use Rattle.tn_live.specs.Log.{log_head};

    ghost Value = { Book };

    ghost view = { λ h. h.word.book };

    ghost invariant = { λ h. h.word ≡ log_head J.log };
}

/// A beginning of the log, which was reached.
#[derive(Drop)]
pub(crate) struct Prefix<J: JournalName> {
    seen: Seen<Entry, u64, LogRule>,
    of: PhantomData<J>,
}

impl<J: JournalName> Model for Prefix<J> {
    ghost use Rattle.std.specs.Prelude.{◌≡◌, List};
    ghost use Rattle.tn_live.specs.declared.entry.Entry.{Entry};

    ghost Value = { List Entry };

    ghost view = { λ f. f.seen.log };

    ghost invariant = { λ f. f.seen.book ≡ J.log };
}

impl<J: JournalName> Prefix<J> {
    /// The same front again.
    pub fn again(&self) -> Prefix<J>
        ensures { result ≡ self.now }
    {
        Prefix {
            seen: self.seen.again(),
            of: PhantomData,
        }
    }

    /// Of two fronts the shorter begins the longer. It does nothing when it runs.
    pub fn begins(&self, longer: &Prefix<J>)
        requires { length self.now ≤ length longer.now }
        ensures { IsPrefix self.now longer.now }
    {
        let mut both = self.seen.again();
        both.learn(&longer.seen);
    }

    /// Adds an entry to all that was seen, unless the log is longer.
    pub fn add(&mut self, head: &Head<J>, len: u64, entry: &Entry) -> bool
        requires count { len ≡ length self.old }
        requires room { len < 2 ^ 62 }
        ensures { IsTrue result → self.new ≡ self.old ++ entry.now ∷ [] }
    {
        let mut offer: Offer<Entry, u64, LogRule, NoGain> = self
            .seen
            .plain::<NoGain, Entry, AddEntry>(entry);
        let mut pen = self.seen.no_pen();
        let found = head
            .word
            .compare_exchange::<AddEntry, NoGain>(
                len,
                len + 1,
                &mut self.seen,
                &mut offer,
                &mut pen,
            );
        found == len
    }
}
