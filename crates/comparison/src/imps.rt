// International match points: the difference of two scores on a scale of 24 steps.
ghost use Rattle.std.specs.Prelude.{◌≡◌, ℕ, ◌<◌, ◌≤◌, ◌↔◌, slice_index, count_by, nat_le};
ghost use Rattle.comparison.specs.Ways.{imps, imp_starts, imp_step};
ghost use Rattle.comparison.specs.Signs.{imps_lawful};
ghost use Rattle.std.proofs.Common.{rules};

use crate::constants_of;
use crate::way::{ComparePoints, Comparison, Constants, FixedConstants};
use scoring::Score;

#[derive(Clone, Copy, Debug)]
pub struct Imps;

/// Where each step of the scale starts.
const STARTS: [u16; 24] = [
    20, 50, 90, 130, 170, 220, 270, 320, 370, 430, 500, 600, 750, 900, 1100, 1300, 1500, 1750,
    2000, 2250, 2500, 3000, 3500, 4000,
];

impl Imps {
    /// How many starts of the scale a difference reaches: more than `k` exactly where it reaches start `k`, counted from 0.
    #[tactic(auto, using(crate::specs::Scale::step_starts), unfolding(crate::specs::Ways::imp_step))]
    pub fn step(difference: u16) -> u8
        ensures value { result ≡ imp_step difference }
        ensures starts { (k : ℕ) → k < 24 → (k < result) ↔ (slice_index imp_starts k ≤ difference) }
    {
        reached(&STARTS, difference)
    }
}

// How many of the starts a difference reaches. A fold over all of them takes no longer than a loop; a filter that is counted, or a
// search that stops early, takes several times as long. It adds by `saturating_add`, since a plain sum would owe that it fits.
fn reached(starts: &[u16; 24], difference: u16) -> u8
    ensures { result ≡ count_by (λ start. nat_le start difference) starts.now }
{
    starts.iter().fold(0, |count: u8, start| {
        count.saturating_add(u8::from(*start <= difference))
    })
}

impl Comparison for Imps {
    const TIE_VALUE: u16 = 0;

    const LIFT: u32 = 10;

    const SCALE: u8 = 1;

    const CODE: u8 = 2;

    ghost TIE_VALUE = { imps.tie };

    ghost LIFT = { imps.lift };

    ghost SCALE = { imps.scale };

    ghost CODE = { imps.code };

    ghost way = { λ _. imps };

    ghost lawful = { λ c. imps_lawful };

    fn compare(&self, own: Score, other: Score) -> ComparePoints {
        let (own, other) = (own.points(), other.points());
        let step = i32::from(Imps::step(own.abs_diff(other)));
        ComparePoints(if own < other { -step } else { step })
    }

    fn constants(&self) -> Constants {
        constants_of!(Self)
    }
}

impl FixedConstants for Imps {
    ghost tied = { Prim.search rules };
}
