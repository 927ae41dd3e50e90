// What an atom is in a head or an expression.
ghost use Rattle.std.specs.Prelude.{◌≡◌};
ghost use Rattle.tn_spec.specs.Names.{atom_kind_seen};

use tn_spec::AtomKind;

/// `tn_spec::kind_of` has one answer.
pub fn kind_of(one: &str, other: &str) -> (AtomKind, AtomKind)
    requires { one.now ≡ other.now }
    ensures { atom_kind_seen result.0 ≡ atom_kind_seen result.1 }
{
    (tn_spec::kind_of(one), tn_spec::kind_of(other))
}

/// `tn_spec::is_anything` has one answer.
pub fn is_anything(one: &str, other: &str) -> (bool, bool)
    requires { one.now ≡ other.now }
    ensures { result.0 ≡ result.1 }
{
    (tn_spec::is_anything(one), tn_spec::is_anything(other))
}
