// A pair that does not come.
ghost use Rattle.std.specs.Prelude.{◌≡◌, IfOk, IfErr, None};
ghost use Rattle.std.specs.Option.{option_map};
ghost use Rattle.std.specs.Result.{result_err};
ghost use Rattle.refusal.specs.Questions.{first_no};
ghost use Rattle.plan.specs.Layers.{without};
ghost use Rattle.layer.specs.Ranges.{missing_pair_range};
ghost use Rattle.plan.proofs.Layers.{without_lawful};

use crate::refused::{LayerRefused, accept};
use plan::{Field, Movement, Sizes, is_within};

/// A movement with each table empty at which `pair` would sit.
#[derive(Drop)]
pub struct MissingPair<M: Movement> {
    below: M,
    pair: u8,
    ghost in_range: { first_no (missing_pair_range (M.Movement.plan below) pair) ≡ None },
}

impl<M: Movement> MissingPair<M> {
    /// Refused unless there is such a pair.
    pub fn new(below: M, pair: u8) -> Result<MissingPair<M>, LayerRefused<M>>
        ensures asked { option_map (λ e. e.refusal) (result_err result) ≡ first_no (missing_pair_range (M.Movement.plan below) pair) }
        ensures made { IfOk result (λ m. (m.below ≡ below) × (m.pair ≡ pair)) }
        ensures back { IfErr result (λ e. e.movement ≡ below) }
    {
        let in_range = is_within(below.pairs(), pair);
        let below = accept(below, in_range)?;
        Ok(MissingPair { below, pair })
    }
}

impl<M: Movement> Movement for MissingPair<M> {
    ghost plan = { λ m. without m.pair (M.Movement.plan m.below) };

    ghost lawful = { λ m. without_lawful m.pair (M.Movement.plan m.below) (M.Movement.lawful m.below) };

    fn sizes(&self) -> Sizes {
        self.below.sizes()
    }

    fn field(&self, pair: u8) -> Option<Field> {
        self.below.field(pair)
    }

    fn seat(&self, round: u8, table: u8) -> Option<(u8, u8, u8)> {
        let (north_south, east_west, set) = self.below.seat(round, table)?;
        if self.pair == north_south || self.pair == east_west {
            return None;
        }
        Some((north_south, east_west, set))
    }
}
