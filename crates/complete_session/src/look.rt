// What is seen of a session between two steps.
ghost use Rattle.std.specs.Prelude.{◌≡◌};
ghost use Rattle.std.specs.Option.{option_map};
ghost use Rattle.tn_term.specs.Views.{alive_of, mfa_seen};
ghost use Rattle.tn_flags.specs.Views.{call_seen, flags_of, table_of};
ghost use Rattle.tn_session.specs.Looks.{look_seen, look_setting, newest_seen};
ghost use Rattle.tn_session.specs.Views.{mark_kind_seen};

use std::alloc::Allocator;
use tn_flags::{Call, FlagTable, Flags};
use tn_index::Setting;
use tn_session::{Kind, Look, NewestSetting};
use tn_spec::Spec;
use tn_term::{Alive, Mfa};

/// `tn_session::Look::is_live` has one answer.
pub fn is_live<A: Allocator + Copy>(one: &Look<'_, A>, other: &Look<'_, A>) -> (bool, bool)
    requires { look_seen one.now ≡ look_seen other.now }
    ensures { result.0 ≡ result.1 }
{
    (one.is_live(), other.is_live())
}

/// `tn_session::Look::alive` has one answer.
pub fn alive<'a, A: Allocator + Copy>(
    one: &Look<'a, A>,
    other: &Look<'a, A>,
) -> (&'a Alive, &'a Alive)
    requires { look_seen one.now ≡ look_seen other.now }
    ensures { alive_of result.0.now ≡ alive_of result.1.now }
{
    (one.alive(), other.alive())
}

/// `tn_session::Look::flags` has one answer.
pub fn flags<'a, A: Allocator + Copy>(
    one: &Look<'a, A>,
    other: &Look<'a, A>,
) -> (&'a FlagTable, &'a FlagTable)
    requires { look_seen one.now ≡ look_seen other.now }
    ensures { table_of result.0.now ≡ table_of result.1.now }
{
    (one.flags(), other.flags())
}

/// `tn_session::Look::flags_at` has one answer.
pub fn flags_at<A: Allocator + Copy>(
    one: &Look<'_, A>,
    other: &Look<'_, A>,
    pid: u32,
) -> (Flags, Flags)
    requires { look_seen one.now ≡ look_seen other.now }
    ensures { flags_of result.0 ≡ flags_of result.1 }
{
    (one.flags_at(pid), other.flags_at(pid))
}

/// `tn_session::Look::new_process_flags` has one answer.
pub fn new_process_flags<A: Allocator + Copy>(
    one: &Look<'_, A>,
    other: &Look<'_, A>,
) -> (Flags, Flags)
    requires { look_seen one.now ≡ look_seen other.now }
    ensures { flags_of result.0 ≡ flags_of result.1 }
{
    (one.new_process_flags(), other.new_process_flags())
}

/// `tn_session::Look::is_marked` has one answer.
pub fn is_marked<A: Allocator + Copy>(
    one: &Look<'_, A>,
    other: &Look<'_, A>,
    pid: u32,
    depth: usize,
) -> (bool, bool)
    requires { look_seen one.now ≡ look_seen other.now }
    ensures { result.0 ≡ result.1 }
{
    (one.is_marked(pid, depth), other.is_marked(pid, depth))
}

/// `tn_session::Look::mark_of` has one answer.
pub fn mark_of<A: Allocator + Copy>(
    one: &Look<'_, A>,
    other: &Look<'_, A>,
    pid: u32,
    depth: usize,
) -> (Option<Kind>, Option<Kind>)
    requires { look_seen one.now ≡ look_seen other.now }
    ensures { option_map mark_kind_seen result.0 ≡ option_map mark_kind_seen result.1 }
{
    (one.mark_of(pid, depth), other.mark_of(pid, depth))
}

/// `tn_session::Look::send_setting` has one answer.
pub fn send_setting<'a, A: Allocator + Copy>(
    one: &Look<'a, A>,
    other: &Look<'a, A>,
) -> (Setting<&'a Spec<A>>, Setting<&'a Spec<A>>)
    requires { look_seen one.now ≡ look_seen other.now }
    ensures { look_setting result.0 ≡ look_setting result.1 }
{
    (one.send_setting(), other.send_setting())
}

/// `tn_session::Look::receive_setting` has one answer.
pub fn receive_setting<'a, A: Allocator + Copy>(
    one: &Look<'a, A>,
    other: &Look<'a, A>,
) -> (Setting<&'a Spec<A>>, Setting<&'a Spec<A>>)
    requires { look_seen one.now ≡ look_seen other.now }
    ensures { look_setting result.0 ≡ look_setting result.1 }
{
    (one.receive_setting(), other.receive_setting())
}

/// `tn_session::Look::newest` has one answer.
pub fn newest<'a, A: Allocator + Copy>(
    one: &Look<'a, A>,
    other: &Look<'a, A>,
    call: &Call<A>,
    same_call: &Call<A>,
) -> (Option<NewestSetting<'a, A>>, Option<NewestSetting<'a, A>>)
    requires looks { look_seen one.now ≡ look_seen other.now }
    requires calls { call_seen call.now ≡ call_seen same_call.now }
    ensures { option_map newest_seen result.0 ≡ option_map newest_seen result.1 }
{
    (one.newest(call), other.newest(same_call))
}

/// `tn_session::Look::setting_count` has one answer.
pub fn setting_count<A: Allocator + Copy>(one: &Look<'_, A>, other: &Look<'_, A>) -> (usize, usize)
    requires { look_seen one.now ≡ look_seen other.now }
    ensures { result.0 ≡ result.1 }
{
    (one.setting_count(), other.setting_count())
}

/// `tn_session::Look::function_setting` has one answer.
pub fn function_setting<'a, A: Allocator + Copy>(
    one: &Look<'a, A>,
    other: &Look<'a, A>,
    place: usize,
) -> (Option<NewestSetting<'a, A>>, Option<NewestSetting<'a, A>>)
    requires { look_seen one.now ≡ look_seen other.now }
    ensures { option_map newest_seen result.0 ≡ option_map newest_seen result.1 }
{
    (one.function_setting(place), other.function_setting(place))
}

/// `tn_session::Look::newest_among` has one answer.
pub fn newest_among<'a, A: Allocator + Copy>(
    one: &Look<'a, A>,
    other: &Look<'a, A>,
    function: &Mfa<A>,
    same_function: &Mfa<A>,
    exported: bool,
) -> (Option<NewestSetting<'a, A>>, Option<NewestSetting<'a, A>>)
    requires looks { look_seen one.now ≡ look_seen other.now }
    requires functions { mfa_seen function.now ≡ mfa_seen same_function.now }
    ensures { option_map newest_seen result.0 ≡ option_map newest_seen result.1 }
{
    (
        one.newest_among(function, exported),
        other.newest_among(same_function, exported),
    )
}
