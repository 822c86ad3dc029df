// What comes back where a layer is refused.
ghost use Rattle.std.specs.Prelude.{◌≡◌, IfOk, IfErr, ◌∷◌, []};
ghost use Rattle.std.specs.Option.{option_map};
ghost use Rattle.std.specs.Result.{result_err};
ghost use Rattle.refusal.specs.Questions.{first_no};
ghost use Rattle.refusal.specs.declared.Refusal.TheVariants.{LayerOutOfRange};

use refusal::Refusal;

/// The movement as it was handed in, and why nothing was laid over it.
#[derive(Drop)]
pub struct LayerRefused<M> {
    pub movement: M,
    pub refusal: Refusal,
}

/// For a `?` where the movement is not wanted back.
impl<M: Drop> From<LayerRefused<M>> for Refusal {
    ghost from_gives = { λ e r. r ≡ e.refusal };

    fn from(refused: LayerRefused<M>) -> Refusal {
        refused.refusal
    }
}

/// Gives the movement on if the number of the layer is in range, and otherwise gives it back with the refusal.
pub(crate) fn accept<M>(movement: M, in_range: bool) -> Result<M, LayerRefused<M>>
    ensures asked { option_map (λ e. e.refusal) (result_err result) ≡ first_no ((in_range, LayerOutOfRange) ∷ []) }
    ensures made { IfOk result (λ m. m ≡ movement) }
    ensures back { IfErr result (λ e. e.movement ≡ movement) }
{
    if !in_range {
        return Err(LayerRefused {
            movement,
            refusal: Refusal::LayerOutOfRange,
        });
    }
    Ok(movement)
}
