// Which picks a request asks for.
ghost use Rattle.std.specs.Prelude.{◌≡◌};
ghost use Rattle.tn_moves.specs.Schedules.{schedule_seen};
ghost use Rattle.tn_request.specs.SchedulesAsked.{picks_asked, round_asked, run_asked, schedule_asked};

use crate::request::{PicksSource, RunRequest, RunSource};
use tn_moves::Schedule;

/// The picks or the moves of a source, with the text that was read where they aren't given.
fn picks_schedule<'a>(picks: &PicksSource<'a>, read: &'a [u8]) -> Schedule<'a>
    ensures { schedule_seen result ≡ picks_asked picks.now read.now }
{
    match *picks {
        PicksSource::Text(text) => Schedule::Picks(text.as_bytes()),
        PicksSource::In(_) => Schedule::Picks(read),
        PicksSource::Moves(text) => Schedule::Moves(text.as_bytes()),
        PicksSource::MovesIn(_) => Schedule::Moves(read),
    }
}

/// A round, in which so many picks may move.
fn round_schedule(limit: u32, control_first: bool) -> Schedule<'static>
    ensures { schedule_seen result ≡ round_asked limit control_first }
{
    if control_first {
        Schedule::ControlFirst(limit)
    } else {
        Schedule::Round(limit)
    }
}

/// The picks of a run that is explained or drawn, or has a state that is asked for.
fn run_schedule<'a>(run: &RunSource<'a>, read: &'a [u8]) -> Schedule<'a>
    ensures { schedule_seen result ≡ run_asked run.now read.now }
{
    match run {
        RunSource::ByPicks(picks) => picks_schedule(picks, read),
        RunSource::ByRound {
            limit,
            control_first,
        } => round_schedule(*limit, *control_first),
    }
}

/// The schedule of a request, with the text that was read of its picks or its moves.
pub fn schedule_of<'a>(request: &RunRequest<'a>, read: &'a [u8]) -> Schedule<'a>
    ensures { schedule_seen result ≡ schedule_asked request.now read.now }
{
    match request {
        RunRequest::Replay { picks, .. } => picks_schedule(picks, read),
        RunRequest::Explain { run, .. } => run_schedule(run, read),
        RunRequest::State { run, .. } => run_schedule(run, read),
        RunRequest::Draw { run, .. } => run_schedule(run, read),
        RunRequest::Round {
            limit,
            control_first,
            ..
        } => round_schedule(*limit, *control_first),
    }
}
