// What is remarked of a run, or of the test of a match specification, on standard error.
ghost use Rattle.std.specs.Prelude.{◌≡◌};
ghost use Rattle.tn_notice.specs.NoticeViews.{notices_seen};
ghost use Rattle.tn_command.specs.Notices.{notice_of_forms};

use crate::spec_notes::spec_note_lines;
use crate::stderr::NamedText;
use std::alloc::Global;
use tn_listing::read_picks;
use tn_moves::Schedule;
use tn_notice::{Notice, nobody_notice, print_notice};
use tn_replay::{has_no_forms, remark_lines, schedule_remark_lines};
use tn_verdict::SpecTestInput;

/// Prints lines, where there was memory for them.
fn print_lines<R: Eprint>(rt: &R, lines: Option<Vec<u8>>) {
    let Some(lines) = lines else {
        return;
    };
    if let Ok(text) = str::from_utf8(&lines) {
        if let Some(text) = text.strip_suffix("\n") {
            print_notice(rt, Notice::Line(text));
        }
    }
}

/// Prints a notice, where there is one.
pub(crate) fn print_notices<R: Eprint>(rt: &R, notice: Option<Notice<'_>>) {
    if let Some(notice) = notice {
        print_notice(rt, notice);
    }
}

/// What is said of a script that has no forms.
pub(crate) fn forms_notice(script: &[u8]) -> Option<Notice<'static>>
    ensures { notices_seen result ≡ notice_of_forms script.now }
{
    if has_no_forms(script) {
        Some(Notice::NoForms)
    } else {
        None
    }
}

/// Says of each command of the run by these picks that is refused, matches no function or has a trap why, in a line.
pub(crate) fn tell_remarks<R: Eprint + AllocGlobal>(rt: &R, script: NamedText<'_>, picks: &[u32]) {
    print_lines(
        rt,
        remark_lines::<Global>(rt.alloc(), script.name, script.bytes, picks).ok(),
    );
}

/// The same of the run by a schedule.
pub(crate) fn tell_schedule_remarks<R: Eprint + AllocGlobal>(
    rt: &R,
    script: NamedText<'_>,
    schedule: &Schedule<'_>,
) {
    let lines = schedule_remark_lines::<Global>(
        rt.alloc(),
        script.name,
        script.bytes,
        schedule,
    ).ok();
    print_lines(rt, lines);
}

/// Says of the first pick of a schedule that names nobody that it does, where there is one.
pub(crate) fn tell_schedule_picks<R: Eprint + AllocGlobal>(rt: &R, schedule: Schedule<'_>) {
    if let Schedule::Picks(text) = schedule {
        if let Ok(picks) = read_picks::<Global>(rt.alloc(), text) {
            print_notices(rt, nobody_notice(&picks));
        }
    }
}

/// Says of a question that has an answer which list was probably meant as a call, and that its list has another length
/// than that of its event.
pub(crate) fn tell_spec_notes<R: Eprint + AllocGlobal>(rt: &R, question: &SpecTestInput<'_>) {
    print_lines(
        rt,
        spec_note_lines::<Global>(rt.alloc(), question.dialect, question.list, question.spec).ok(),
    );
}
