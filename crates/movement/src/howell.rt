// The Howell movement for four tables.
ghost use Rattle.std.specs.Prelude.{◌≡◌, ◌≤◌, IfOk};
ghost use Rattle.std.specs.Result.{result_err};
ghost use Rattle.refusal.specs.Questions.{first_no};
ghost use Rattle.plan.specs.Laws.{In};
ghost use Rattle.plan.specs.Movements.{after, howell};
ghost use Rattle.movement.specs.Sizes.{howell_sizes};
ghost use Rattle.plan.proofs.Howells.{howell_lawful};

use crate::circle::Circle;
use crate::sizes;
use plan::{Field, Movement, Sizes, is_within, one_field};
use refusal::Refusal;

const TABLES: u8 = 4;

const PAIRS: u8 = 8;

/// The sets, and the pairs that do not sit still, each go around the numbers 1 to 7.
const CIRCLE: u8 = 7;

/// Four tables, eight pairs in one field and up to seven rounds, in which all of them meet.
#[derive(Clone, Copy, PartialEq, Eq, Debug)]
pub struct Howell {
    rounds: u8,
    ghost least_rounds: { 1 ≤ rounds },
    ghost most_rounds: { rounds ≤ 7 },
}

impl Howell {
    pub fn new(tables: u8, rounds: u8) -> Result<Howell, Refusal>
        ensures asked { result_err result ≡ first_no (howell_sizes tables rounds) }
        ensures made { IfOk result (λ m. m.rounds ≡ rounds) }
    {
        sizes::check(tables == TABLES, is_within(CIRCLE, rounds))?;
        Ok(Howell { rounds })
    }
}

impl Movement for Howell {
    ghost plan = { λ m. howell m.rounds };

    ghost lawful = { λ m. howell_lawful m.rounds (m.least_rounds, m.most_rounds) };

    fn sizes(&self) -> Sizes {
        Sizes {
            tables: TABLES,
            rounds: self.rounds,
            sets: CIRCLE,
            pairs: PAIRS,
        }
    }

    fn field(&self, pair: u8) -> Option<Field> {
        one_field(PAIRS, pair)
    }

    fn seat(&self, round: u8, table: u8) -> Option<(u8, u8, u8)> {
        if !is_within(self.rounds, round) {
            return None;
        }
        match table {
            1 => Some((PAIRS, after(round, 0), after(round, 0))),
            2 => Some((after(round, 2), after(round, 3), after(round, 5))),
            3 => Some((after(round, 4), after(round, 6), after(round, 3))),
            4 => Some((after(round, 1), after(round, 5), after(round, 6))),
            _ => None,
        }
    }
}

// The number so many steps after that of the round, around the circle.
fn after(round: u8, steps: u8) -> u8
    requires on { In 7 round }
    requires few { steps ≤ 6 }
    ensures { result ≡ after round steps }
{
    Circle { size: CIRCLE }.ahead(round, steps)
}
