// Picks that name nobody.
ghost use Rattle.std.specs.Prelude.{◌≡◌};
ghost use Rattle.std.specs.List.{position};
ghost use Rattle.tn_notice.specs.NoticeViews.{notices_seen};
ghost use Rattle.tn_notice.specs.PickNotes.{names_nobody, nobody_notice};

use crate::notice::Notice;

/// The first pid that a process may have.
const FIRST_PID: u32 = 100;

/// The last one.
const LAST_PID: u32 = 163;

/// Whether the pick is neither 0, which takes the next command, nor a pid that a process may have.
fn names_nobody(pick: u32) -> bool
    ensures { result ≡ names_nobody pick }
{
    pick != 0 && (pick < FIRST_PID || pick > LAST_PID)
}

/// The place of the first pick that names nobody, where there is one.
fn place_of_nobody(picks: &[u32]) -> Option<usize>
    ensures { result ≡ position names_nobody picks.now }
{
    picks.iter().position(|pick| names_nobody(*pick))
}

/// What is said of the first pick that names nobody, where there is one.
pub fn nobody_notice(picks: &[u32]) -> Option<Notice<'static>>
    ensures { notices_seen result ≡ nobody_notice picks.now }
{
    let Some(place) = place_of_nobody(picks) else {
        return None;
    };
    Some(Notice::PickOfNobody {
        number: place + 1,
        pick: picks[place],
    })
}
