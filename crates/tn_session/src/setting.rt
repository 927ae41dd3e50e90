// The setting that concerns a call.
ghost use Rattle.std.specs.Prelude.{◌≡◌, Some};
ghost use Rattle.def_session.specs.Settings.{setting_for};
ghost use Rattle.tn_flags.specs.Views.{call_seen};
ghost use Rattle.tn_session.specs.Views.{function_setting_seen, settings_seen};
ghost use Rattle.tn_session.specs.Newest.{setting_of_command, lent_setting};

use crate::shared_spec::SharedSpec;
use std::alloc::Allocator;
use tn_flags::Call;
use tn_index::{FunctionSetting, Setting, Settings};

/// The setting of a command, where it concerns a call that names the module or not.
fn setting_if<A: Allocator>(
    function_setting: &FunctionSetting<SharedSpec<A>, A>,
    named: bool,
) -> Option<&Setting<SharedSpec<A>>>
    ensures { setting_of_command (Some (function_setting_seen function_setting.now)) named ≡ lent_setting result }
{
    if function_setting.local || named {
        Some(&function_setting.setting)
    } else {
        None
    }
}

/// The setting that concerns a call, where there is one. That of a global command concerns the calls
/// that name the module alone, and an older one never shows through.
pub(crate) fn setting_for<'a, A: Allocator + Copy>(
    settings: &'a Settings<SharedSpec<A>, A>,
    call: &Call<A>,
) -> Option<&'a Setting<SharedSpec<A>>>
    ensures { setting_for (settings_seen settings.now) (call_seen call.now) ≡ lent_setting result }
{
    match settings.get(&call.mfa, call.exported) {
        None => None,
        Some(function_setting) => setting_if(function_setting, call.named),
    }
}
