// The Mitchell movement.
ghost use Rattle.std.specs.Prelude.{◌-◌, refl};
ghost use Rattle.plan.specs.Movements.{mitchell};
ghost use Rattle.movement.specs.Sizes.{mitchell_sizes};
ghost use Rattle.movement.specs.Walks.{straight_turns};

use crate::rotating::Rotating;
use crate::sizes;
use crate::walk::Walk;
use plan::is_within;
use refusal::Refusal;

/// An odd number of tables from 3 to 15, and no more rounds than tables. North-South sit still, the East-West pairs go up
/// one table after each round and the sets down one.
pub type Mitchell = Rotating<Straight>;

/// One table up after each round.
#[derive(Clone, Copy, PartialEq, Eq, Debug)]
pub struct Straight;

impl Walk for Straight {
    ghost questions = { mitchell_sizes };

    ghost plan = { mitchell };

    ghost gone = { λ tables round. round - 1 };

    ghost rotates = { λ tables rounds. refl };

    ghost turns = { straight_turns };

    fn check(tables: u8, rounds: u8) -> Result<(), Refusal> {
        let has_tables = tables % 2 == 1 && (3..=15).contains(&tables);
        sizes::check(has_tables, is_within(tables, rounds))
    }

    fn gone(_tables: u8, round: u8) -> u8 {
        round.saturating_sub(1)
    }
}
