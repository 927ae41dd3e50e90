// A closed journal.
ghost use Rattle.std.specs.Prelude.{◌≡◌, map};
ghost use Rattle.tn_text.specs.WrittenTrees.{written_tree};
ghost use Rattle.tn_program.specs.Views.{program_of};
ghost use Rattle.complete_runs.specs.Alike.{listing_seen};
ghost use Rattle.complete_live.specs.Alike.{receipt_seen};

use std::alloc::Allocator;
use tn_live::{Closed, Entry, JournalName, Receipt};
use tn_program::{Program, Sessions};
use tn_text::WrittenTerm;

/// `tn_live::Closed::journal` has one answer.
pub fn journal<'a, A: Allocator + Copy, J: JournalName, K: JournalName>(
    one: &'a Closed<A, J>,
    other: &'a Closed<A, K>,
) -> (&'a [Entry], &'a [Entry])
    requires { one.now ≡ other.now }
    ensures { result.0.now ≡ result.1.now }
{
    (one.journal(), other.journal())
}

/// `tn_live::Closed::program` has one answer.
pub fn program<'a, A: Allocator + Copy, J: JournalName, K: JournalName>(
    one: &'a Closed<A, J>,
    other: &'a Closed<A, K>,
) -> (&'a Program<A>, &'a Program<A>)
    requires { J.program ≡ K.program }
    ensures { program_of result.0.now ≡ program_of result.1.now }
{
    (one.program(), other.program())
}

/// `tn_live::Closed::sessions` has one answer.
pub fn sessions<'a, A: Allocator + Copy, J: JournalName, K: JournalName>(
    one: &'a Closed<A, J>,
    other: &'a Closed<A, K>,
) -> (Sessions<'a, A>, Sessions<'a, A>)
    requires { J.program ≡ K.program }
    ensures { result.0 ≡ result.1 }
{
    (one.sessions(), other.sessions())
}

/// `tn_live::Closed::listing` has one answer.
pub fn listing<'a, A: Allocator + Copy, J: JournalName, K: JournalName>(
    one: &'a Closed<A, J>,
    other: &'a Closed<A, K>,
    session: u32,
) -> (Option<&'a [WrittenTerm<A>]>, Option<&'a [WrittenTerm<A>]>)
    requires named { J.program ≡ K.program }
    requires entries { one.now ≡ other.now }
    ensures { listing_seen result.0 ≡ listing_seen result.1 }
{
    (one.listing(session), other.listing(session))
}

/// `tn_live::Closed::replies` has one answer.
pub fn replies<'a, A: Allocator + Copy, J: JournalName, K: JournalName>(
    one: &'a Closed<A, J>,
    other: &'a Closed<A, K>,
) -> (&'a [WrittenTerm<A>], &'a [WrittenTerm<A>])
    requires named { J.program ≡ K.program }
    requires entries { one.now ≡ other.now }
    ensures { map written_tree result.0.now ≡ map written_tree result.1.now }
{
    (one.replies(), other.replies())
}

/// `tn_live::Closed::confirm` has one answer.
pub fn confirm<A: Allocator + Copy, J: JournalName, K: JournalName>(
    one: &Closed<A, J>,
    other: &Closed<A, K>,
    receipt: &Receipt<A>,
    same_receipt: &Receipt<A>,
) -> (bool, bool)
    requires named { J.program ≡ K.program }
    requires entries { one.now ≡ other.now }
    requires receipts { receipt_seen receipt.now ≡ receipt_seen same_receipt.now }
    ensures { result.0 ≡ result.1 }
{
    (one.confirm(receipt), other.confirm(same_receipt))
}
