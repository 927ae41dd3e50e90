// What is seen of a session between two steps.
ghost use Rattle.std.specs.Prelude.{◌≡◌};
ghost use Rattle.tn_session.specs.Looks.{look_setting};
ghost use Rattle.tn_session.specs.Views.{setting_seen};

use crate::shared_spec::SharedSpec;
use crate::state::{Kind, Phase, State};
use std::alloc::Allocator;
use tn_flags::{Call, FlagTable, Flags};
use tn_index::Setting;
use tn_spec::Spec;
use tn_term::{Alive, Mfa};

/// A session as it is between two steps: its flags, its settings with their specifications, its marks and
/// who lives.
#[derive_where(Clone, Copy)]
pub struct Look<'a, A: Allocator> {
    pub(crate) state: &'a State<A>,
}

/// What a function command sets, the newest that covers a function or any, and whether it is local.
#[derive(Drop)]
pub struct NewestSetting<'a, A: Allocator> {
    pub setting: Setting<&'a Spec<A>>,
    pub local: bool,
}

/// The setting, with its specification borrowed.
fn borrow_setting<A: Allocator + Copy>(setting: &Setting<SharedSpec<A>>) -> Setting<&Spec<A>>
    ensures { look_setting result ≡ setting_seen setting.now }
{
    match setting {
        Setting::Disabled => Setting::Disabled,
        Setting::Always => Setting::Always,
        Setting::Specification(shared) => Setting::Specification(
            shared.compiled_spec().specification(),
        ),
    }
}

impl<'a, A: Allocator + Copy> Look<'a, A> {
    ghost use Rattle.std.specs.Prelude.{◌≡◌, length, reverse, slice_get};
    ghost use Rattle.std.specs.Option.{option_map};
    ghost use Rattle.def_session.specs.Session as session;
    ghost use Rattle.def_session.specs.State as definition;
    ghost use Rattle.tn_term.specs.Views.{alive_of, mfa_seen};
    ghost use Rattle.tn_flags.specs.Views.{call_seen, flags_of, table_of};
    ghost use Rattle.tn_session.specs.Looks.{look_seen, look_setting, is_live, newest_seen, newest_for, newest_among};
    ghost use Rattle.tn_session.specs.Looks.{parts_of};
    ghost use Rattle.tn_session.specs.Views.{mark_kind_seen};

    /// Whether it was not destroyed.
    pub fn is_live(&self) -> bool
        ensures { result ≡ is_live (look_seen self.now).phase }
    {
        match self.state.phase {
            Phase::Live => true,
            Phase::Destroyed => false,
        }
    }

    /// The processes that live, as it knows them.
    pub fn alive(&self) -> &'a Alive
        ensures { alive_of result.now ≡ (look_seen self.now).alive }
    {
        &self.state.alive
    }

    /// The flags of all processes.
    pub fn flags(&self) -> &'a FlagTable
        ensures { table_of result.now ≡ (look_seen self.now).flags }
    {
        &self.state.flags
    }

    /// The flags of a process (`trace:process/4`).
    pub fn flags_at(&self, pid: u32) -> Flags
        ensures { flags_of result ≡ definition.flags_at (look_seen self.now) pid }
    {
        self.state.flags_at(pid)
    }

    /// The flags that new processes get (`trace:process/4`).
    pub fn new_process_flags(&self) -> Flags
        ensures { flags_of result ≡ (look_seen self.now).new_process_flags }
    {
        self.state.new_process_flags
    }

    /// Whether the frame of this depth is marked: its return is reported.
    pub fn is_marked(&self, pid: u32, depth: usize) -> bool
        ensures { result ≡ session.is_marked (look_seen self.now) pid depth }
    {
        self.state.is_marked(pid, depth)
    }

    /// The kind of the mark that the frame of this depth has, if it has one: whether its return is reported alone,
    /// or an exception that leaves it too.
    pub fn mark_of(&self, pid: u32, depth: usize) -> Option<Kind>
        ensures { option_map mark_kind_seen result ≡ definition.mark_of (look_seen self.now) pid depth }
    {
        self.state.mark_of(pid, depth)
    }

    /// The setting of sends (`trace:send/3`).
    pub fn send_setting(&self) -> Setting<&'a Spec<A>>
        ensures { look_setting result ≡ (look_seen self.now).sending }
    {
        borrow_setting(&self.state.sending)
    }

    /// The setting of receives (`trace:recv/3`).
    pub fn receive_setting(&self) -> Setting<&'a Spec<A>>
        ensures { look_setting result ≡ (look_seen self.now).receiving }
    {
        borrow_setting(&self.state.receiving)
    }

    /// How many function commands it accepted (`trace:function/4`).
    pub fn setting_count(&self) -> usize
        ensures { result ≡ length (look_seen self.now).functions }
    {
        self.state.settings.commands().len()
    }

    /// What the function command at a place sets, the oldest first (`trace:function/4`); None past them.
    pub fn function_setting(&self, place: usize) -> Option<NewestSetting<'a, A>>
        ensures { let fs = reverse (look_seen self.now).functions in
            option_map newest_seen result ≡ option_map parts_of (slice_get fs place) }
    {
        match self.state.settings.commands().get(place) {
            None => None,
            Some(function_setting) => Some(NewestSetting {
                setting: borrow_setting(&function_setting.setting),
                local: function_setting.local,
            }),
        }
    }

    /// What the newest function command that has the function, exported or not, among its own sets
    /// (`trace:function/4`); None where there is none.
    pub fn newest_among(&self, function: &Mfa<A>, exported: bool) -> Option<NewestSetting<'a, A>>
        ensures { option_map newest_seen result ≡ newest_among self.now (mfa_seen function.now) exported }
    {
        match self.state.settings.get(function, exported) {
            None => None,
            Some(function_setting) => Some(NewestSetting {
                setting: borrow_setting(&function_setting.setting),
                local: function_setting.local,
            }),
        }
    }

    /// What the newest function command that has the called function among its own sets; None where there is none.
    pub fn newest(&self, call: &Call<A>) -> Option<NewestSetting<'a, A>>
        ensures { option_map newest_seen result ≡ newest_for self.now (call_seen call.now) }
    {
        self.newest_among(&call.mfa, call.exported)
    }
}
