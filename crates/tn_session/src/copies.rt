// A session's state once more.
ghost use Rattle.std.specs.Prelude.{◌≡◌, IfOk, map};
ghost use Rattle.tn_session.specs.Sessions.{session_seen};
ghost use Rattle.tn_session.specs.Views.{function_setting_seen, process_marks_seen, setting_seen};
ghost use Rattle.tn_session.specs.Views.{settings_seen};

use crate::shared_spec::SharedSpec;
use crate::state::{Mark, State};
use std::alloc::{AllocError, Allocator};
use std::sync::Arc;
use tn_index::{FunctionSetting, Setting, Settings};

/// The same setting. Its specification has one owner more.
fn share_setting<A: Allocator + Copy>(
    setting: &Setting<SharedSpec<A>>,
) -> Result<Setting<SharedSpec<A>>, AllocError>
    ensures { IfOk result (λ s. setting_seen s ≡ setting_seen setting.now) }
{
    match setting {
        Setting::Disabled => Ok(Setting::Disabled),
        Setting::Always => Ok(Setting::Always),
        Setting::Specification(shared) => Ok(Setting::Specification(shared.share()?)),
    }
}

/// The same function command. Its specification has one owner more.
fn share_command<A: Allocator + Copy>(
    alloc: A,
    command: &FunctionSetting<SharedSpec<A>, A>,
) -> Result<FunctionSetting<SharedSpec<A>, A>, AllocError>
    ensures { IfOk result (λ k. function_setting_seen k ≡ function_setting_seen command.now) }
{
    let covered = command.covered.copy_into(alloc)?;
    let setting = share_setting(&command.setting)?;
    Ok(FunctionSetting {
        covered,
        setting,
        local: command.local,
    })
}

/// The same function commands. They have no entries of functions, which a copy would pay for: a function is looked
/// for among the commands.
fn share_settings<A: Allocator + Copy>(
    alloc: A,
    settings: &Settings<SharedSpec<A>, A>,
) -> Result<Settings<SharedSpec<A>, A>, AllocError>
    ensures { IfOk result (λ s. settings_seen s ≡ settings_seen settings.now) }
{
    let functions = Vec::new(alloc);
    let mut copy = Settings::new(alloc);
    for command in settings.commands() {
        let shared = share_command(alloc, command)?;
        copy.set(&functions, shared)?;
    }
    Ok(copy)
}

/// The same marks of a process.
fn copy_marks<A: Allocator + Copy>(
    alloc: A,
    marks: &Vec<Mark, A>,
) -> Result<Vec<Mark, A>, AllocError>
    ensures { IfOk result (λ v. v.items ≡ marks.now.items) }
{
    let mut copy = Vec::with_capacity(alloc, marks.len())?;
    for mark in marks {
        copy.push(*mark)?;
    }
    Ok(copy)
}

/// The same marks of all processes.
fn copy_all_marks<A: Allocator + Copy>(
    alloc: A,
    marks: &Vec<Vec<Mark, A>, A>,
) -> Result<Vec<Vec<Mark, A>, A>, AllocError>
    ensures { IfOk result (λ v. map process_marks_seen v.items ≡ map process_marks_seen marks.now.items) }
{
    let mut copies = Vec::with_capacity(alloc, marks.len())?;
    for of_process in marks {
        copies.push(copy_marks(alloc, of_process)?)?;
    }
    Ok(copies)
}

impl<A: Allocator + Copy> State<A> {
    /// The same state once more. Its functions and specifications have one owner more.
    pub(crate) fn share(&self) -> Result<State<A>, AllocError>
        ensures { IfOk result (λ s. session_seen s ≡ session_seen self.now) }
    {
        Ok(State {
            alloc: self.alloc,
            phase: self.phase,
            functions: Arc::try_clone(&self.functions)?,
            alive: self.alive,
            flags: self.flags,
            new_process_flags: self.new_process_flags,
            settings: share_settings(self.alloc, &self.settings)?,
            sending: share_setting(&self.sending)?,
            receiving: share_setting(&self.receiving)?,
            marks: copy_all_marks(self.alloc, &self.marks)?,
        })
    }
}
