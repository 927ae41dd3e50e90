// The flags that values name.
ghost use Rattle.std.specs.Prelude.{◌≡◌};
ghost use Rattle.std.specs.Option.{option_map};
ghost use Rattle.def_spec.specs.Flags.{flag_named, flags_named, flags_listed, only};
ghost use Rattle.tn_flags.specs.Views.{flags_of};
ghost use Rattle.tn_guard.specs.Views.{value_seen, list_view_seen};

use std::alloc::Allocator;
use tn_flags::{Flags, flag_of_name};
use tn_guard::{ListView, Value};

/// The flag that the value names; None where it names none of the ten.
pub(crate) fn flag_in<A: Allocator>(value: Value<'_, A>) -> Option<Flags>
    ensures { option_map flags_of result ≡ option_map only (flag_named (value_seen value.entry)) }
{
    match value.atom_text() {
        Some(text) => flag_of_name(text),
        None => None,
    }
}

/// The flags that the value lists; None where it is no list, or where an element is no flag.
pub(crate) fn flags_in<A: Allocator>(value: Value<'_, A>) -> Option<Flags>
    ensures { option_map flags_of result ≡ flags_listed (value_seen value.entry) }
{
    match value.list_parts() {
        Some(parts) => flags_of_all(parts),
        None => None,
    }
}

/// The flags that the elements name; None where one is no flag.
fn flags_of_all<A: Allocator>(parts: ListView<'_, A>) -> Option<Flags>
    ensures { option_map flags_of result ≡ flags_named (list_view_seen parts.entry) }
{
    let mut flags = Flags::none();
    for place in 0..parts.len() {
        match flag_in(parts.at(place)) {
            Some(flag) => flags = flags.join(flag),
            None => return None,
        }
    }
    Some(flags)
}
