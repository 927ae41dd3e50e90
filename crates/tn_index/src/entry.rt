// The entry of a function in the index.
ghost use Rattle.std.specs.Prelude.{◌≡◌, None, map, IfSome};
ghost use Rattle.std.specs.List.{All, Contains};
ghost use Rattle.tn_term.specs.Views.{mfa_seen};
ghost use Rattle.tn_index.specs.Entries.{renew, IsEntryOf, IsUnset};

use crate::function_setting::FunctionSetting;
use indexmap::IndexMap;
use std::alloc::{AllocError, Allocator};
use std::hash::{BuildHasherDefault, FoldHasher, Hash, Hasher};
use tn_term::Mfa;

/// A function of the program, and the command that set it last.
#[derive(Drop)]
pub(crate) struct Entry<A: Allocator> {
    pub function: Mfa<A>,
    pub exported: bool,
    /// The place of the newest command that has the function among its own, where there is one.
    pub newest: Option<usize>,
}

/// Where the entry of a function is, by the hash of the function.
pub(crate) type Places<A> = IndexMap<u64, usize, BuildHasherDefault<FoldHasher>, A>;

/// The hash of a function.
fn hash_of<A: Allocator>(function: &Mfa<A>) -> u64 {
    let mut hasher = FoldHasher::default();
    function.module.text().hash(&mut hasher);
    function.name.text().hash(&mut hasher);
    function.arity.hash(&mut hasher);
    hasher.finish()
}

/// The entry of a function, exported or not; None where it has none, or where another function's hash is
/// the same.
pub(crate) fn find<'a, A: Allocator>(
    entries: &'a [Entry<A>],
    places: &Places<A>,
    function: &Mfa<A>,
    exported: bool,
) -> Option<&'a Entry<A>>
    ensures among { IfSome result (λ e. Contains entries.now e.now) }
    ensures its { IfSome result (λ e. IsEntryOf (mfa_seen function.now) exported e.now) }
{
    let place = places.get(&hash_of(function))?;
    let entry = entries.get(*place)?;
    if entry.function.same(function) && entry.exported == exported {
        Some(entry)
    } else {
        None
    }
}

/// Makes an entry for each of these functions, with no command yet, in place of those that were there. An
/// error is refused memory.
pub(crate) fn enter<A: Allocator + Copy>(
    alloc: A,
    functions: &[(Mfa<A>, bool)],
    entries: &mut Vec<Entry<A>, A>,
    places: &mut Places<A>,
) -> Result<(), AllocError>
    ensures { All IsUnset entries.new.items }
{
    entries.clear();
    for (function, exported) in functions {
        places.insert(hash_of(function), entries.len())?;
        entries.push(Entry {
            function: function.copy_into(alloc)?,
            exported: *exported,
            newest: None,
        })?;
    }
    Ok(())
}

/// The command at this place is the newest of each function that it covers, whichever kind the one before
/// it is.
pub(crate) fn renew<S, A: Allocator>(
    entries: &mut Vec<Entry<A>, A>,
    place: usize,
    function_setting: &FunctionSetting<S, A>,
)
    ensures { entries.new.items ≡ map (renew function_setting.now place) entries.old.items }
{
    for entry in entries.iter_mut() {
        if function_setting.has_among(&entry.function, entry.exported) {
            entry.newest = Some(place);
        }
    }
}
