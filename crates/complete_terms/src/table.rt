// The flags of all processes.
ghost use Rattle.std.specs.Prelude.{◌≡◌};
ghost use Rattle.tn_flags.specs.Views.{flags_of, table_of};

use tn_flags::{FlagTable, Flags};

/// `tn_flags::FlagTable::none` has one answer.
pub fn none() -> (FlagTable, FlagTable)
    ensures { table_of result.0 ≡ table_of result.1 }
{
    (FlagTable::none(), FlagTable::none())
}

/// `tn_flags::FlagTable::len` has one answer.
pub fn len(one: &FlagTable, other: &FlagTable) -> (usize, usize)
    ensures { result.0 ≡ result.1 }
{
    (one.len(), other.len())
}

/// `tn_flags::FlagTable::of` has one answer.
pub fn of(one: &FlagTable, other: &FlagTable, pid: u32) -> (Flags, Flags)
    requires { table_of one.now ≡ table_of other.now }
    ensures { flags_of result.0 ≡ flags_of result.1 }
{
    (one.of(pid), other.of(pid))
}

/// `tn_flags::FlagTable::set` leaves one table.
pub fn set(one: &mut FlagTable, other: &mut FlagTable, pid: u32, flags: Flags)
    requires { table_of one.old ≡ table_of other.old }
    ensures { table_of one.new ≡ table_of other.new }
{
    one.set(pid, flags);
    other.set(pid, flags);
}

/// `tn_flags::FlagTable::change` leaves one table.
pub fn change(one: &mut FlagTable, other: &mut FlagTable, pid: u32, off: Flags, on: Flags)
    requires { table_of one.old ≡ table_of other.old }
    ensures { table_of one.new ≡ table_of other.new }
{
    one.change(pid, off, on);
    other.change(pid, off, on);
}

/// `tn_flags::FlagTable::silence` leaves one table.
pub fn silence(one: &mut FlagTable, other: &mut FlagTable, pid: u32, on: bool)
    requires { table_of one.old ≡ table_of other.old }
    ensures { table_of one.new ≡ table_of other.new }
{
    one.silence(pid, on);
    other.silence(pid, on);
}
