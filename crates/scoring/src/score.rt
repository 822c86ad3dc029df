ghost use Rattle.std.specs.Prelude.{◌≡◌, pos, MatchOption};
ghost use Rattle.scoring.specs.Range.{ScoreRange};

/// North-South's result on a board.
#[derive(Clone, Copy, PartialEq, Eq, PartialOrd, Ord, Debug)]
pub struct Score {
    pub(crate) points: i16,
    ghost within: { ScoreRange points },
}

impl Score {
    /// A passed board scores nothing.
    pub fn passed_out() -> Score
        ensures { result.points ≡ pos 0 }
    {
        Score { points: 0 }
    }

    // An option and no `TryFrom`, whose error could say no more.
    pub fn new(points: i16) -> Option<Score>
        ensures { MatchOption result (ScoreRange points → ⊥) (λ s. s.points ≡ points) }
    {
        if (-7600..=7600).contains(&points) {
            Some(Score { points })
        } else {
            None
        }
    }

    pub fn points(self) -> i16
        ensures { result ≡ self.points }
    {
        self.points
    }
}
