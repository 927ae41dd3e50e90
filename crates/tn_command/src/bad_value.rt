// A value of an option that is none.
ghost use Rattle.std.specs.Process.{exit_status};
ghost use Rattle.tn_command.specs.Status.{IsStatus};

use crate::status::{REFUSED, report};
use std::process::ExitCode;
use tn_notice::{CommandFault, Notice, escape_controls, print_notice};

/// A value of an option that isn't what the option takes.
#[derive(Clone, Copy)]
pub struct BadValue<'a> {
    /// The option, with the name of its value.
    pub option: &'static str,
    pub text: &'a str,
    /// Why it is none, or what is expected.
    pub reason: &'static str,
}

/// Says on standard error that a value of an option is none, in one line.
pub fn refuse_value<R: Eprint + AllocGlobal>(rt: &R, bad: BadValue<'_>) -> ExitCode
    ensures { IsStatus (exit_status result) }
{
    let BadValue {
        option,
        text,
        reason,
    } = bad;
    let Ok(plain) = escape_controls(rt.alloc(), text) else {
        return report(rt, CommandFault::Memory);
    };
    let text = str::from_utf8(&plain).unwrap_or("");
    print_notice(
        rt,
        Notice::NoValue {
            text,
            option,
            reason,
        },
    );
    ExitCode::from(REFUSED)
}
