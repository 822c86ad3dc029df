// Total points: the difference itself.
ghost use Rattle.comparison.specs.Ways.{total_points};
ghost use Rattle.std.proofs.Common.{rules};

use crate::constants_of;
use crate::way::{ComparePoints, Comparison, Constants, FixedConstants};
use scoring::Score;

#[derive(Clone, Copy, Debug)]
pub struct TotalPoints;

impl Comparison for TotalPoints {
    const TIE_VALUE: u16 = 0;

    const LIFT: u32 = 500;

    const SCALE: u8 = 1;

    const CODE: u8 = 3;

    ghost TIE_VALUE = { total_points.tie };

    ghost LIFT = { total_points.lift };

    ghost SCALE = { total_points.scale };

    ghost CODE = { total_points.code };

    ghost way = { λ _. total_points };

    ghost lawful = { Prim.search rules };

    fn compare(&self, own: Score, other: Score) -> ComparePoints {
        ComparePoints(i32::from(own.points()) - i32::from(other.points()))
    }

    fn constants(&self) -> Constants {
        constants_of!(Self)
    }
}

impl FixedConstants for TotalPoints {
    ghost tied = { Prim.search rules };
}
