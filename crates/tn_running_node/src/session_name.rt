// Whether the session of a name is selected.
ghost use Rattle.std.specs.Prelude.{◌≡◌};
ghost use Rattle.std.specs.Option.{option_map};
ghost use Rattle.def_explain.specs.RunTexts.{is_session};

use std::alloc::Allocator;
use tn_term::Atom;

/// Whether the session of this name is selected: that of the wanted name alone, where one is given.
pub fn is_session<A: Allocator>(wanted: Option<&str>, name: &Atom<A>) -> bool
    ensures { result ≡ is_session (option_map (λ s. s.now) wanted.entry) name.now }
{
    match wanted {
        None => true,
        Some(wanted) => wanted == name.text(),
    }
}
