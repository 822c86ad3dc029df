// Matchpoints: two for a better score, one for an equal one.
ghost use Rattle.comparison.specs.Ways.{matchpoints};
ghost use Rattle.std.proofs.Common.{rules};

use crate::constants_of;
use crate::way::{ComparePoints, Comparison, Constants, FixedConstants};
use scoring::Score;
use std::cmp::Ordering;

#[derive(Clone, Copy, Debug)]
pub struct Matchpoints;

impl Comparison for Matchpoints {
    const TIE_VALUE: u16 = 1;

    const LIFT: u32 = 1;

    const SCALE: u8 = 50;

    const CODE: u8 = 1;

    ghost TIE_VALUE = { matchpoints.tie };

    ghost LIFT = { matchpoints.lift };

    ghost SCALE = { matchpoints.scale };

    ghost CODE = { matchpoints.code };

    ghost way = { λ _. matchpoints };

    ghost lawful = { Prim.search rules };

    fn compare(&self, own: Score, other: Score) -> ComparePoints {
        ComparePoints(match own.cmp(&other) {
            Ordering::Greater => 2,
            Ordering::Equal => 1,
            Ordering::Less => 0,
        })
    }

    fn constants(&self) -> Constants {
        constants_of!(Self)
    }
}

impl FixedConstants for Matchpoints {
    ghost tied = { Prim.search rules };
}
