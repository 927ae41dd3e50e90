// What differs, and where.
ghost use Rattle.std.specs.Prelude.{◌≡◌, [], IfOk};
ghost use Rattle.def_explain.specs.Mismatches as mismatches;
ghost use Rattle.tn_guard.specs.Views.{value_seen};
ghost use Rattle.tn_mismatch.specs.Views.{head_part_seen, mismatch_seen};

use bumpalo::Bump;
use std::alloc::{AllocError, Allocator};
use tn_guard::Value;
use tn_term::Term;

/// What a head has at a place.
#[derive_where(Clone, Copy)]
pub enum HeadPart<'a, A: Allocator> {
    /// This term, which matches itself alone.
    Term(&'a Term<A>),
    /// A variable that met this value before.
    Bound { number: u16, value: Value<'a, A> },
    /// A tuple of so many.
    Tuple(usize),
    /// A list of so many.
    List(usize),
}

/// Where a head first differs from a list.
#[derive_where(Clone, Copy)]
pub struct Mismatch<'a, A: Allocator> {
    /// How many elements stand before it, level by level.
    pub place: &'a [usize],
    /// What the head has there.
    pub part: HeadPart<'a, A>,
    /// The term there.
    pub value: Value<'a, A>,
}

impl<'a, A: Allocator> Mismatch<'a, A> {
    /// Of the pattern and the value themselves.
    pub(crate) fn here(part: HeadPart<'a, A>, value: Value<'a, A>) -> Mismatch<'a, A>
        ensures { mismatch_seen result ≡ mismatches.mismatch [] (head_part_seen part.entry) (value_seen value.entry) }
    {
        Mismatch {
            place: &[],
            part,
            value,
        }
    }

    /// The same, in the element after so many.
    pub(crate) fn in_element(
        self,
        arena: &'a Bump<A>,
        index: usize,
    ) -> Result<Mismatch<'a, A>, AllocError>
        ensures { IfOk result (λ m. mismatch_seen m ≡ mismatches.in_element index (mismatch_seen self.entry)) }
    {
        let mut place = Vec::new(arena);
        place.push(index)?;
        place.extend_from_slice(self.place)?;
        Ok(Mismatch {
            place: arena.try_alloc_slice_copy(&place)?,
            part: self.part,
            value: self.value,
        })
    }
}
