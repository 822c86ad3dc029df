// The scorer: what a contract scores on a board, and how that is made up.
ghost use Rattle.std.specs.Prelude.{◌≡◌};
ghost use Rattle.scoring.specs.Law.{OutcomeOf, outcome_points, declarer_score, score_on};
ghost use Rattle.scoring.specs.Range.{ScoreRange};

use crate::down::penalty;
use crate::made::{game_premium, insult_premium, overtrick_value, slam_premium, trick_points};
use crate::outcome::{MadeScore, Outcome, Undertricks};
use crate::score::Score;
use contract::{Contract, Vulnerability};

impl Outcome {
    /// How the score of declarer's side is made up.
    pub fn of(c: Contract, vulnerable: bool) -> Outcome
        ensures { OutcomeOf vulnerable c result }
    {
        let needed = c.level + 6;
        if c.tricks < needed {
            let count = needed - c.tricks;
            let penalty = penalty(c.doubling, vulnerable, count);
            return Outcome::Down(Undertricks { count, penalty });
        }
        let overtricks = u16::from(c.tricks - needed);
        Outcome::Made(MadeScore {
            trick_points: trick_points(c),
            game_premium: game_premium(c, vulnerable),
            slam_premium: slam_premium(c.level, vulnerable),
            insult_premium: insult_premium(c.doubling),
            overtrick_points: overtricks * overtrick_value(c, vulnerable),
        })
    }

    /// For declarer's side: the sum of the parts, or the penalty below zero.
    pub fn points(self) -> i16
        ensures value { result ≡ outcome_points self }
        ensures within { ScoreRange result }
    {
        match self {
            Outcome::Made(m) => (m.trick_points
                + m.game_premium
                + m.slam_premium
                + m.insult_premium
                + m.overtrick_points) as i16,
            Outcome::Down(u) => -(u.penalty as i16),
        }
    }
}

fn declarer_score(c: Contract, vulnerable: bool) -> i16
    ensures value { result ≡ declarer_score vulnerable c }
    ensures within { ScoreRange result }
{
    Outcome::of(c, vulnerable).points()
}

impl Score {
    /// What the contract scores for North-South on a board of this number.
    pub fn of_contract(c: Contract, board: u8) -> Score
        ensures { result.points ≡ score_on board c }
    {
        let vulnerable = Vulnerability::of_board(board).applies_to(c.declarer);
        let points = declarer_score(c, vulnerable);
        Score {
            points: if c.declarer.is_north_south() {
                points
            } else {
                -points
            },
        }
    }
}
