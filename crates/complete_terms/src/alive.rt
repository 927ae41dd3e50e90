// The set of living pids.
ghost use Rattle.std.specs.Prelude.{◌≡◌, ◌≤◌};
ghost use Rattle.tn_term.specs.Views.{alive_of};

use tn_term::Alive;

/// `tn_term::Alive::first` has one answer.
pub fn first(count: usize) -> (Alive, Alive)
    requires { count ≤ 64 }
    ensures { alive_of result.0 ≡ alive_of result.1 }
{
    (Alive::first(count), Alive::first(count))
}

/// `tn_term::Alive::none` has one answer.
pub fn none() -> (Alive, Alive)
    ensures { alive_of result.0 ≡ alive_of result.1 }
{
    (Alive::none(), Alive::none())
}

/// `tn_term::Alive::has` has one answer.
pub fn has(one: &Alive, other: &Alive, pid: u32) -> (bool, bool)
    requires { alive_of one.now ≡ alive_of other.now }
    ensures { result.0 ≡ result.1 }
{
    (one.has(pid), other.has(pid))
}

/// `tn_term::Alive::has_place` has one answer.
pub fn has_place(one: &Alive, other: &Alive, place: usize) -> (bool, bool)
    requires { alive_of one.now ≡ alive_of other.now }
    ensures { result.0 ≡ result.1 }
{
    (one.has_place(place), other.has_place(place))
}

/// `tn_term::Alive::add` leaves one set.
pub fn add(one: &mut Alive, other: &mut Alive, pid: u32)
    requires { alive_of one.old ≡ alive_of other.old }
    ensures { alive_of one.new ≡ alive_of other.new }
{
    one.add(pid);
    other.add(pid);
}

/// `tn_term::Alive::remove` leaves one set.
pub fn remove(one: &mut Alive, other: &mut Alive, pid: u32)
    requires { alive_of one.old ≡ alive_of other.old }
    ensures { alive_of one.new ≡ alive_of other.new }
{
    one.remove(pid);
    other.remove(pid);
}

/// `tn_term::Alive::count` has one answer.
pub fn count(one: &Alive, other: &Alive) -> (u8, u8)
    requires { alive_of one.now ≡ alive_of other.now }
    ensures { result.0 ≡ result.1 }
{
    (one.count(), other.count())
}
