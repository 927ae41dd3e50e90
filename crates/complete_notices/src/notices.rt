// What is said.
ghost use Rattle.std.specs.Prelude.{◌≡◌};
ghost use Rattle.tn_notice.specs.DifferenceViews.{difference_seen_of};
ghost use Rattle.tn_notice.specs.NoticeViews.{notices_seen};

use tn_notice::{CommandFault, Notice, OutputDifference, Side, SystemReason, TestText};

/// `tn_notice::notice_of_fault` has one answer.
pub fn notice_of_fault<'a>(
    fault: CommandFault,
    reason: Option<SystemReason<'a>>,
) -> (Option<Notice<'a>>, Option<Notice<'a>>)
    ensures { notices_seen result.0 ≡ notices_seen result.1 }
{
    let first = tn_notice::notice_of_fault(fault, reason);
    let second = tn_notice::notice_of_fault(fault, reason);
    (first, second)
}

/// `tn_notice::nobody_notice` has one answer.
pub fn nobody_notice(
    picks: &[u32],
    same: &[u32],
) -> (Option<Notice<'static>>, Option<Notice<'static>>)
    requires { picks.now ≡ same.now }
    ensures { notices_seen result.0 ≡ notices_seen result.1 }
{
    let first = tn_notice::nobody_notice(picks);
    let second = tn_notice::nobody_notice(same);
    (first, second)
}

/// `tn_notice::lack_of_lines` has one answer.
pub fn lack_of_lines(
    side: Side,
    is_end: bool,
) -> (OutputDifference<'static>, OutputDifference<'static>)
    ensures { difference_seen_of result.0 ≡ difference_seen_of result.1 }
{
    let first = tn_notice::lack_of_lines(side, is_end);
    let second = tn_notice::lack_of_lines(side, is_end);
    (first, second)
}

/// `tn_notice::TestText::name` has one answer.
pub fn name(text: TestText) -> (&'static str, &'static str)
    ensures { result.0.now ≡ result.1.now }
{
    (text.name(), text.name())
}
