// The Mitchell movement for an even number of tables, with a skip.
ghost use Rattle.std.specs.Prelude.{◌-◌, ◌/◌, nat_le, refl, if◌then◌else◌};
ghost use Rattle.plan.specs.Movements.{skip_mitchell};
ghost use Rattle.movement.specs.Sizes.{skip_mitchell_sizes};
ghost use Rattle.movement.specs.Walks.{skipping_turns};

use crate::rotating::Rotating;
use crate::sizes;
use crate::walk::Walk;
use plan::is_within;
use refusal::Refusal;

/// An even number of tables from 4 to 16, and fewer rounds than tables. As in a Mitchell, but after round `tables / 2` the
/// East-West pairs skip a table, since from there on they would come to sets that they have met.
pub type SkipMitchell = Rotating<Skipping>;

/// One table up after each round, and two after round `tables / 2`.
#[derive(Clone, Copy, PartialEq, Eq, Debug)]
pub struct Skipping;

impl Walk for Skipping {
    ghost questions = { skip_mitchell_sizes };

    ghost plan = { skip_mitchell };

    ghost gone = { λ tables round. if nat_le round (tables / 2) then round - 1 else round };

    ghost rotates = { λ tables rounds. refl };

    ghost turns = { skipping_turns };

    fn check(tables: u8, rounds: u8) -> Result<(), Refusal> {
        let has_tables = tables % 2 == 0 && (4..=16).contains(&tables);
        sizes::check(has_tables, is_within(tables.saturating_sub(1), rounds))
    }

    fn gone(tables: u8, round: u8) -> u8 {
        if round <= tables / 2 {
            round.saturating_sub(1)
        } else {
            round
        }
    }
}
