// The texts of messages and of listings.
ghost use Rattle.std.specs.Prelude.{◌≡◌, OnOk, OnErr, map};
ghost use Rattle.tn_text.specs.WrittenTrees.{written_tree};

use std::alloc::{AllocError, Allocator};
use tn_term::Atom;
use tn_text::WrittenTerm;

/// `tn_listing::lines_text` has one answer. Where memory is refused, the text is as it was.
pub fn lines_text<A: Allocator, B: Allocator>(
    one: &[WrittenTerm<A>],
    other: &[WrittenTerm<A>],
    out: &mut Vec<u8, B>,
    same_out: &mut Vec<u8, B>,
) -> (Result<(), AllocError>, Result<(), AllocError>)
    requires terms { map written_tree one.now ≡ map written_tree other.now }
    requires outs { out.old.items ≡ same_out.old.items }
    ensures ok { OnOk result.0 (OnOk result.1 (out.new.items ≡ same_out.new.items)) }
    ensures err { OnErr result.0 (out.new.items ≡ out.old.items) }
{
    let first = tn_listing::lines_text(one, out);
    let second = tn_listing::lines_text(other, same_out);
    (first, second)
}

/// `tn_listing::listing_text` has one answer. Where memory is refused, the text is as it was.
pub fn listing_text<A: Allocator, B: Allocator>(
    names: (&Atom<A>, &Atom<A>),
    one: &[WrittenTerm<A>],
    other: &[WrittenTerm<A>],
    out: &mut Vec<u8, B>,
    same_out: &mut Vec<u8, B>,
) -> (Result<(), AllocError>, Result<(), AllocError>)
    requires messages { map written_tree one.now ≡ map written_tree other.now }
    requires outs { out.old.items ≡ same_out.old.items }
    ensures ok { OnOk result.0 (OnOk result.1 (out.new.items ≡ same_out.new.items)) }
    ensures err { OnErr result.0 (out.new.items ≡ out.old.items) }
{
    let first = tn_listing::listing_text(names.0, names.1, one, out);
    let second = tn_listing::listing_text(names.0, names.1, other, same_out);
    (first, second)
}
