// Sets of boards.
ghost use Rattle.std.specs.Prelude.{◌≡◌, ◌≤◌, IfOk, Some};
ghost use Rattle.std.specs.Result.{result_err};
ghost use Rattle.refusal.specs.Questions.{first_no};
ghost use Rattle.plan.specs.Boards.{first_board, last_board, boards_range, boards_text};

use crate::range::is_within;
use refusal::Refusal;
use std::fmt;

/// How many boards a set holds: 1 to 4.
// Ghost fields and no `impl Model`, with which the range would not be known behind a reference, and a struct that holds one would
// not be copied.
#[derive(Clone, Copy, PartialEq, Eq, Debug)]
pub struct BoardsPerSet {
    boards: u8,
    ghost least: { 1 ≤ boards },
    ghost most: { boards ≤ 4 },
}

impl TryFrom<u8> for BoardsPerSet {
    type Error = Refusal;

    ghost try_from_gives = { λ boards r. (result_err r ≡ first_no (boards_range boards)) × IfOk r (λ b. b.boards ≡ boards) };

    fn try_from(boards: u8) -> Result<BoardsPerSet, Refusal> {
        if !is_within(4, boards) {
            return Err(Refusal::BoardsPerSetOutOfRange);
        }
        Ok(BoardsPerSet { boards })
    }
}

impl BoardsPerSet {
    pub fn count(self) -> u8
        ensures { result ≡ self.boards }
    {
        self.boards
    }

    /// The boards of a set. Sets are numbered from 1; there are no boards in set 0.
    pub fn of_set(self, set: u8) -> Boards
        ensures first { result.first ≡ first_board self.boards set }
        ensures last { result.last ≡ last_board self.boards set }
    {
        let boards = u16::from(self.count());
        let before = u16::from(set.saturating_sub(1)) * boards;
        Boards {
            first: before + 1,
            last: u16::from(set) * boards,
        }
    }
}

/// The boards of one set, from the lowest to the highest.
#[derive(Clone, Copy, PartialEq, Eq, Debug)]
pub struct Boards {
    pub first: u16,
    pub last: u16,
}

/// As `board 7` or `boards 7 to 8`.
impl fmt::Display for Boards {
    ghost output = { λ b. Some (boards_text b.first b.last) };

    fn fmt<W: fmt::Write>(&self, f: &mut fmt::Formatter<W>) -> fmt::Result {
        let (first, last) = (self.first, self.last);
        if first == last {
            write!(f, "board {first}")
        } else {
            write!(f, "boards {first} to {last}")
        }
    }
}
