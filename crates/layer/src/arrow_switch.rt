// The last rounds with the sides exchanged, so that all pairs can be ranked in one field.
ghost use Rattle.std.specs.Prelude.{◌≡◌, IfOk, IfErr, None};
ghost use Rattle.std.specs.Option.{option_map};
ghost use Rattle.std.specs.Result.{result_err};
ghost use Rattle.refusal.specs.Questions.{first_no};
ghost use Rattle.plan.specs.Layers.{arrow_switched};
ghost use Rattle.layer.specs.Ranges.{arrow_switch_range};
ghost use Rattle.plan.proofs.Layers.{arrow_switched_lawful};

use crate::refused::{LayerRefused, accept};
use plan::{Field, Movement, Sizes, one_field};

/// A movement with North-South and East-West exchanged from round `from` on, and all pairs in field 1.
#[derive(Drop)]
pub struct ArrowSwitch<M: Movement> {
    below: M,
    from: u8,
    ghost in_range: { first_no (arrow_switch_range (M.Movement.plan below) from) ≡ None },
}

impl<M: Movement> ArrowSwitch<M> {
    /// Refused unless there is such a round, later than the first.
    pub fn new(below: M, from: u8) -> Result<ArrowSwitch<M>, LayerRefused<M>>
        ensures asked { option_map (λ e. e.refusal) (result_err result) ≡ first_no (arrow_switch_range (M.Movement.plan below) from) }
        ensures made { IfOk result (λ m. (m.below ≡ below) × (m.from ≡ from)) }
        ensures back { IfErr result (λ e. e.movement ≡ below) }
    {
        let in_range = (2..=below.rounds()).contains(&from);
        let below = accept(below, in_range)?;
        Ok(ArrowSwitch { below, from })
    }
}

impl<M: Movement> Movement for ArrowSwitch<M> {
    ghost plan = { λ m. arrow_switched m.from (M.Movement.plan m.below) };

    ghost lawful = { λ m. arrow_switched_lawful m.from (M.Movement.plan m.below) (M.Movement.lawful m.below) };

    fn sizes(&self) -> Sizes {
        self.below.sizes()
    }

    fn field(&self, pair: u8) -> Option<Field> {
        one_field(self.below.pairs(), pair)
    }

    fn seat(&self, round: u8, table: u8) -> Option<(u8, u8, u8)> {
        let (north_south, east_west, set) = self.below.seat(round, table)?;
        if round < self.from {
            return Some((north_south, east_west, set));
        }
        Some((east_west, north_south, set))
    }
}
