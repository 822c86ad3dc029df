// What every way of comparing has to be.
ghost use Rattle.std.specs.Prelude.{◌≡◌, ℕ};
ghost use Rattle.comparison.specs.Way.{Way, Lawful, HasConstants};

use scoring::Score;

/// Points won in a comparison, or in several together.
#[derive(Clone, Copy, PartialEq, Eq, PartialOrd, Ord, Debug)]
pub struct ComparePoints(pub i32);

/// The constants of a way of comparing.
#[derive(Clone, Copy, PartialEq, Eq, Debug)]
pub struct Constants {
    /// What each side has of a tie.
    pub tie_value: u16,
    /// What an average-plus gains over an average, in fifths of a point.
    pub lift: u32,
    /// By how much a printed score is multiplied.
    pub scale: u8,
    /// The number of the way in a book.
    pub code: u8,
}

/// The constants of a type, as a value: the body of `constants` where they are those of the way.
// A macro, since a body in the trait would be for every type, also for one whose values mean several ways.
#[macro_export]
macro_rules! constants_of {
    ($way:ty) => {
        $crate::Constants {
            tie_value: <$way>::TIE_VALUE,
            lift: <$way>::LIFT,
            scale: <$way>::SCALE,
            code: <$way>::CODE,
        }
    };
}

/// A way of comparing two scores. It means a `Way`, and no implementation exists without the laws of one.
pub trait Comparison {
    const TIE_VALUE: u16;

    const LIFT: u32;

    const SCALE: u8;

    const CODE: u8;

    ghost TIE_VALUE: { ℕ };

    ghost LIFT: { ℕ };

    ghost SCALE: { ℕ };

    ghost CODE: { ℕ };

    ghost way: { Self → Way };

    /// What the holder of `own` wins from the holder of `other`.
    fn compare(&self, own: Score, other: Score) -> ComparePoints
        ensures { result.0 ≡ (way self.now).compare own other };

    /// The four constants of the meaning.
    fn constants(&self) -> Constants
        ensures tie { result.tie_value ≡ (way self.now).tie }
        ensures lift { result.lift ≡ (way self.now).lift }
        ensures scale { result.scale ≡ (way self.now).scale }
        ensures code { result.code ≡ (way self.now).code };

    ghost lawful: { (c : Self) → Lawful (way c) };
}

/// A way whose constants are those of its type, for every value. A type whose values mean several ways, as one that is chosen when
/// the program runs, is a `Comparison` alone, and only `constants` says what its constants are.
pub trait FixedConstants: Comparison {
    ghost tied: { (c : Self) → HasConstants (Self.Comparison.way c) Self.Comparison.TIE_VALUE Self.Comparison.LIFT Self.Comparison.SCALE Self.Comparison.CODE };
}
