// What a run answers.
ghost use Rattle.std.specs.Prelude.{◌≡◌};
ghost use Rattle.tn_run.specs.Answers.{is_listed};

use tn_moves::MovesRefusal;
use tn_refusal::Refusal;

/// Why a script is not run.
#[derive(Clone, Copy, Debug, PartialEq, Eq, Drop)]
pub enum RunRefusal {
    /// The script or the text of picks is refused: what the job writes for a refusal is written.
    Text(Refusal),
    /// The text of moves is refused, which says no moves of the accepted script: nothing is written.
    Moves(MovesRefusal),
}

/// What was written.
#[derive(Clone, Copy, Debug, PartialEq, Eq, Drop)]
pub enum Outcome {
    /// The output of an accepted script.
    Listed,
    /// What the refusal says.
    Refused(RunRefusal),
}

/// Whether it is the output of an accepted script.
pub fn is_listed(outcome: Outcome) -> bool
    ensures { result ≡ is_listed outcome }
{
    match outcome {
        Outcome::Listed => true,
        Outcome::Refused(_) => false,
    }
}
