// Why a session refuses a command, and the texts of these reasons.
ghost use Rattle.std.specs.Prelude.{◌≡◌, IfOk, OnOk};
ghost use Rattle.tn_flags.specs.Views.{command_of};
ghost use Rattle.tn_remark.specs.TextLines.{text_seen};
ghost use Rattle.tn_command_reason.specs.CommandReasons.{command_reasons_seen};
ghost use Rattle.complete_explain.specs.CommandReasons.{IsSessionOver};

use std::alloc::{AllocError, Allocator};
use tn_command_reason::CommandReason;
use tn_flags::Command;
use tn_script::Function;
use tn_session::Session;

/// `tn_command_reason::absent_reason` has one answer.
pub fn absent_reason<'a, A: Allocator>(
    one: &Command<A>,
    other: &Command<A>,
) -> (Option<CommandReason<'a, A>>, Option<CommandReason<'a, A>>)
    requires { command_of one.now ≡ command_of other.now }
    ensures { command_reasons_seen result.0 ≡ command_reasons_seen result.1 }
{
    (
        tn_command_reason::absent_reason(one),
        tn_command_reason::absent_reason(other),
    )
}

/// `tn_command_reason::command_reason` has one answer, of a session of a program with these functions.
pub fn command_reason<'a, A: Allocator + Copy>(
    alloc: A,
    session: &Option<Session<A>>,
    functions: &'a [Function<A>],
    command: &'a Command<A>,
) -> (
    Result<Option<CommandReason<'a, A>>, AllocError>,
    Result<Option<CommandReason<'a, A>>, AllocError>,
)
    requires { IsSessionOver functions.now session.now }
    ensures { IfOk result.0 (λ x. IfOk result.1 (λ y. command_reasons_seen x ≡ command_reasons_seen y)) }
{
    (
        tn_command_reason::command_reason(alloc, session, functions, command),
        tn_command_reason::command_reason(alloc, session, functions, command),
    )
}

/// `tn_command_reason::has_trap` has one answer.
pub fn has_trap<A: Allocator + Copy>(
    alloc: A,
    functions: &[Function<A>],
    command: &Command<A>,
) -> (Result<bool, AllocError>, Result<bool, AllocError>)
    ensures { IfOk result.0 (λ x. IfOk result.1 (λ y. x ≡ y)) }
{
    (
        tn_command_reason::has_trap(alloc, functions, command),
        tn_command_reason::has_trap(alloc, functions, command),
    )
}

/// `tn_command_reason::put_reason_after_reply` leaves one text. After refused memory the text that was there is still a
/// front of it.
pub fn put_reason_after_reply<A: Allocator, B: Allocator>(
    one: Option<CommandReason<'_, A>>,
    other: Option<CommandReason<'_, A>>,
    first: &mut Vec<u8, B>,
    second: &mut Vec<u8, B>,
) -> (Result<(), AllocError>, Result<(), AllocError>)
    requires reasons { command_reasons_seen one ≡ command_reasons_seen other }
    requires texts { first.old.items ≡ second.old.items }
    ensures { OnOk result.0 (OnOk result.1 (first.new.items ≡ second.new.items)) }
{
    (
        tn_command_reason::put_reason_after_reply(one, first),
        tn_command_reason::put_reason_after_reply(other, second),
    )
}

/// `tn_command_reason::reason_text` has one answer.
pub fn reason_text<A: Allocator + Copy>(
    alloc: A,
    one: Option<CommandReason<'_, A>>,
    other: Option<CommandReason<'_, A>>,
) -> (
    Result<Option<Vec<u8, A>>, AllocError>,
    Result<Option<Vec<u8, A>>, AllocError>,
)
    requires { command_reasons_seen one ≡ command_reasons_seen other }
    ensures { IfOk result.0 (λ x. IfOk result.1 (λ y. text_seen x ≡ text_seen y)) }
{
    (
        tn_command_reason::reason_text(alloc, one),
        tn_command_reason::reason_text(alloc, other),
    )
}
