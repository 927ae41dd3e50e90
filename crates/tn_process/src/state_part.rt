// Parts of the state of a node: copies that share their terms, comparisons, and what they add to a hash.
ghost use Rattle.std.specs.Prelude.{◌≡◌, ◌↔◌, ◌++◌, [], IfOk, IsTrue, map};
ghost use Rattle.std.specs.Option.{option_map};

use std::alloc::{AllocError, Allocator};
use std::collections::VecDeque;
use std::hash::{FoldHasher, Hasher};
use std::sync::Arc;

/// A part of the state of a node, by what it stands for: a value, a process, all processes.
pub trait StatePart<A: Allocator>: Sized + Drop {
    ghost Seen: { Type 0 };

    ghost seen: { Self → Seen };

    /// The same part once more. A term that may have several owners has one owner more, and is not copied.
    ///
    /// # Errors
    ///
    /// AllocError where memory was refused, or a count of owners is full.
    fn share(&self, alloc: A) -> Result<Self, AllocError>
        ensures { IfOk result (λ part. seen part ≡ seen self.now) };

    /// Whether both are the same.
    fn same(&self, other: &Self) -> bool
        ensures { IsTrue result ↔ (seen self.now ≡ seen other.now) };

    /// Adds the part to a hash: parts that are the same add the same.
    fn add_to(&self, hasher: &mut FoldHasher);

    /// A number that is the same for parts that are the same, and mostly another for others.
    fn fingerprint(&self) -> u64 {
        let mut hasher = FoldHasher::default();
        self.add_to(&mut hasher);
        hasher.finish()
    }
}

/// Adds each part once more to the copies.
fn add_shares<A: Allocator + Copy, P: StatePart<A>>(
    alloc: A,
    parts: &[P],
    copies: &mut Vec<P, A>,
) -> Result<(), AllocError>
    ensures { IfOk result (λ _. map P.seen copies.new.items ≡ map P.seen copies.old.items ++ map P.seen parts.now) }
{
    for part in parts {
        copies.push(part.share(alloc)?)?;
    }
    Ok(())
}

/// Whether the parts are the same, in the same order.
fn same_each<A: Allocator, P: StatePart<A>>(one: &[P], other: &[P]) -> bool
    ensures { IsTrue result ↔ (map P.seen one.now ≡ map P.seen other.now) }
{
    if one.len() != other.len() {
        return false;
    }
    for i in 0..one.len() {
        if !one[i].same(&other[i]) {
            return false;
        }
    }
    true
}

/// The same of the parts of queues.
fn same_queue<A: Allocator, P: StatePart<A>>(one: &VecDeque<P, A>, other: &VecDeque<P, A>) -> bool
    ensures { IsTrue result ↔ (map P.seen one.now.items ≡ map P.seen other.now.items) }
{
    if one.len() != other.len() {
        return false;
    }
    for i in 0..one.len() {
        if !one[i].same(&other[i]) {
            return false;
        }
    }
    true
}

impl<A: Allocator + Copy, P: StatePart<A>> StatePart<A> for Option<P> {
    ghost use Rattle.std.specs.Prelude.{Option};

    ghost Seen = { Option P.Seen };

    ghost seen = { option_map P.seen };

    fn share(&self, alloc: A) -> Result<Self, AllocError> {
        match self {
            None => Ok(None),
            Some(part) => Ok(Some(part.share(alloc)?)),
        }
    }

    fn same(&self, other: &Self) -> bool {
        match (self, other) {
            (Some(one), Some(other)) => one.same(other),
            (None, None) => true,
            _ => false,
        }
    }

    fn add_to(&self, hasher: &mut FoldHasher) {
        match self {
            None => hasher.write_u8(0),
            Some(part) => {
                hasher.write_u8(1);
                part.add_to(hasher);
            }
        }
    }
}

impl<A: Allocator + Copy, P: StatePart<A>> StatePart<A> for Vec<P, A> {
    ghost use Rattle.std.specs.Prelude.{List};

    ghost Seen = { List P.Seen };

    ghost seen = { λ parts. map P.seen parts.items };

    fn share(&self, alloc: A) -> Result<Self, AllocError> {
        let mut copies = Vec::with_capacity(alloc, self.len())?;
        add_shares(alloc, self, &mut copies)?;
        Ok(copies)
    }

    fn same(&self, other: &Self) -> bool {
        same_each(self, other)
    }

    fn add_to(&self, hasher: &mut FoldHasher) {
        hasher.write_usize(self.len());
        for part in self {
            part.add_to(hasher);
        }
    }
}

impl<A: Allocator + Copy, P: StatePart<A>> StatePart<A> for VecDeque<P, A> {
    ghost use Rattle.std.specs.Prelude.{List};

    ghost Seen = { List P.Seen };

    ghost seen = { λ parts. map P.seen parts.items };

    fn share(&self, alloc: A) -> Result<Self, AllocError> {
        let mut copies = Vec::with_capacity(alloc, self.len())?;
        let (first, rest) = self.as_slices();
        add_shares(alloc, first, &mut copies)?;
        add_shares(alloc, rest, &mut copies)?;
        Ok(VecDeque::from(copies))
    }

    fn same(&self, other: &Self) -> bool {
        same_queue(self, other)
    }

    fn add_to(&self, hasher: &mut FoldHasher) {
        hasher.write_usize(self.len());
        for i in 0..self.len() {
            self[i].add_to(hasher);
        }
    }
}

impl<A: Allocator + Copy, P: StatePart<A>> StatePart<A> for Arc<P, A> {
    ghost use Rattle.std.specs.Arc.{arc_value};

    ghost Seen = { P.Seen };

    ghost seen = { λ owner. P.seen (arc_value owner) };

    fn share(&self, _: A) -> Result<Self, AllocError> {
        Arc::try_clone(self)
    }

    fn same(&self, other: &Self) -> bool {
        let (one, other): (&P, &P) = (&**self, &**other);
        one.same(other)
    }

    fn add_to(&self, hasher: &mut FoldHasher) {
        let part: &P = &**self;
        part.add_to(hasher);
    }
}
