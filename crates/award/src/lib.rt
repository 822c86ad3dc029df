// The unit in which awards are counted.

#![tactic(auto)]

ghost use Rattle.std.specs.Prelude.{◌≡◌, pos, ◌*ℤ◌};
ghost use Rattle.award.specs.Units.{units_per_point};

use comparison::ComparePoints;

const UNITS_PER_POINT: i64 = 720_720;

/// An award, or a sum of awards, in units.
///
/// A comparison point has 720,720 units. That number is divisible by every number up to 16, so a share of a board with
/// at most 16 results is a whole number of units.
// No `impl Model`, since a struct that holds one would not be copied where it is passed on twice.
#[derive(Clone, Copy, PartialEq, Eq, PartialOrd, Ord, Debug)]
pub struct AwardUnits {
    units: i64,
}

/// The award of a result that won so many points, where every result of the board was comparable with it.
impl From<ComparePoints> for AwardUnits {
    ghost from_gives = { λ points award. award.units ≡ points.0 *ℤ pos units_per_point };

    fn from(points: ComparePoints) -> AwardUnits {
        AwardUnits {
            units: i64::from(points.0) * UNITS_PER_POINT,
        }
    }
}

impl AwardUnits {
    pub fn units(self) -> i64
        ensures { result ≡ self.units }
    {
        self.units
    }
}
