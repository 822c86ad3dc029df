// Slips and what they say, worked out by hand: some, and every slip that is one byte away from them or is left where they are
// cut short.
use Average::{Even, Minus, Plus};
use Declarer::{East, North, South, West};
use Denomination::{Clubs, Diamonds, Hearts, NoTrump, Spades};
use Doubling::{Doubled, Redoubled, Undoubled};
use Said::{Averages, Passed, Scored};
use contract::{Declarer, Denomination, Doubling};
use returns::{Average, Return};

/// What a slip says, as numbers and names.
#[derive(Clone, Copy)]
pub(crate) enum Said {
    /// Level, denomination, doubling, declarer, tricks and group.
    Scored(u8, Denomination, Doubling, Declarer, u8, u8),
    /// The group.
    Passed(u8),
    /// North-South's average and East-West's.
    Averages(Average, Average),
}

impl Said {
    /// As a return.
    pub(crate) fn returned(self) -> Option<Return> {
        match self {
            Scored(level, denomination, doubling, declarer, tricks, group) => {
                Return::scored(level, denomination, doubling, declarer, tricks, group).ok()
            }
            Passed(group) => Return::passed(group).ok(),
            Averages(north_south, east_west) => Some(Return::Averages {
                north_south,
                east_west,
            }),
        }
    }
}

pub(crate) const SLIPS: [(&str, Said); 110] = [
    // 4SX N 10 and what is one byte away from it
    ("4SX N 10", Scored(4, Spades, Doubled, North, 10, 0)),
    ("1SX N 10", Scored(1, Spades, Doubled, North, 10, 0)),
    ("2SX N 10", Scored(2, Spades, Doubled, North, 10, 0)),
    ("3SX N 10", Scored(3, Spades, Doubled, North, 10, 0)),
    ("5SX N 10", Scored(5, Spades, Doubled, North, 10, 0)),
    ("6SX N 10", Scored(6, Spades, Doubled, North, 10, 0)),
    ("7SX N 10", Scored(7, Spades, Doubled, North, 10, 0)),
    ("4CX N 10", Scored(4, Clubs, Doubled, North, 10, 0)),
    ("4DX N 10", Scored(4, Diamonds, Doubled, North, 10, 0)),
    ("4HX N 10", Scored(4, Hearts, Doubled, North, 10, 0)),
    ("4NX N 10", Scored(4, NoTrump, Doubled, North, 10, 0)),
    ("4SX E 10", Scored(4, Spades, Doubled, East, 10, 0)),
    ("4SX S 10", Scored(4, Spades, Doubled, South, 10, 0)),
    ("4SX W 10", Scored(4, Spades, Doubled, West, 10, 0)),
    ("4SX N 11", Scored(4, Spades, Doubled, North, 11, 0)),
    ("4SX N 12", Scored(4, Spades, Doubled, North, 12, 0)),
    ("4SX N 13", Scored(4, Spades, Doubled, North, 13, 0)),
    ("4S N 10", Scored(4, Spades, Undoubled, North, 10, 0)),
    ("4SX N 0", Scored(4, Spades, Doubled, North, 0, 0)),
    ("4SX N 1", Scored(4, Spades, Doubled, North, 1, 0)),
    ("4SXX N 10", Scored(4, Spades, Redoubled, North, 10, 0)),
    // 3N S 8
    ("3N S 8", Scored(3, NoTrump, Undoubled, South, 8, 0)),
    ("1N S 8", Scored(1, NoTrump, Undoubled, South, 8, 0)),
    ("2N S 8", Scored(2, NoTrump, Undoubled, South, 8, 0)),
    ("4N S 8", Scored(4, NoTrump, Undoubled, South, 8, 0)),
    ("5N S 8", Scored(5, NoTrump, Undoubled, South, 8, 0)),
    ("6N S 8", Scored(6, NoTrump, Undoubled, South, 8, 0)),
    ("7N S 8", Scored(7, NoTrump, Undoubled, South, 8, 0)),
    ("3C S 8", Scored(3, Clubs, Undoubled, South, 8, 0)),
    ("3D S 8", Scored(3, Diamonds, Undoubled, South, 8, 0)),
    ("3H S 8", Scored(3, Hearts, Undoubled, South, 8, 0)),
    ("3S S 8", Scored(3, Spades, Undoubled, South, 8, 0)),
    ("3N N 8", Scored(3, NoTrump, Undoubled, North, 8, 0)),
    ("3N E 8", Scored(3, NoTrump, Undoubled, East, 8, 0)),
    ("3N W 8", Scored(3, NoTrump, Undoubled, West, 8, 0)),
    ("3N S 0", Scored(3, NoTrump, Undoubled, South, 0, 0)),
    ("3N S 1", Scored(3, NoTrump, Undoubled, South, 1, 0)),
    ("3N S 2", Scored(3, NoTrump, Undoubled, South, 2, 0)),
    ("3N S 3", Scored(3, NoTrump, Undoubled, South, 3, 0)),
    ("3N S 4", Scored(3, NoTrump, Undoubled, South, 4, 0)),
    ("3N S 5", Scored(3, NoTrump, Undoubled, South, 5, 0)),
    ("3N S 6", Scored(3, NoTrump, Undoubled, South, 6, 0)),
    ("3N S 7", Scored(3, NoTrump, Undoubled, South, 7, 0)),
    ("3N S 9", Scored(3, NoTrump, Undoubled, South, 9, 0)),
    ("3NX S 8", Scored(3, NoTrump, Doubled, South, 8, 0)),
    // 7HXX W 13 G3, and what is left where it is cut short
    ("7HXX W 13 G3", Scored(7, Hearts, Redoubled, West, 13, 3)),
    ("1HXX W 13 G3", Scored(1, Hearts, Redoubled, West, 13, 3)),
    ("2HXX W 13 G3", Scored(2, Hearts, Redoubled, West, 13, 3)),
    ("3HXX W 13 G3", Scored(3, Hearts, Redoubled, West, 13, 3)),
    ("4HXX W 13 G3", Scored(4, Hearts, Redoubled, West, 13, 3)),
    ("5HXX W 13 G3", Scored(5, Hearts, Redoubled, West, 13, 3)),
    ("6HXX W 13 G3", Scored(6, Hearts, Redoubled, West, 13, 3)),
    ("7CXX W 13 G3", Scored(7, Clubs, Redoubled, West, 13, 3)),
    ("7DXX W 13 G3", Scored(7, Diamonds, Redoubled, West, 13, 3)),
    ("7SXX W 13 G3", Scored(7, Spades, Redoubled, West, 13, 3)),
    ("7NXX W 13 G3", Scored(7, NoTrump, Redoubled, West, 13, 3)),
    ("7HXX N 13 G3", Scored(7, Hearts, Redoubled, North, 13, 3)),
    ("7HXX E 13 G3", Scored(7, Hearts, Redoubled, East, 13, 3)),
    ("7HXX S 13 G3", Scored(7, Hearts, Redoubled, South, 13, 3)),
    ("7HXX W 10 G3", Scored(7, Hearts, Redoubled, West, 10, 3)),
    ("7HXX W 11 G3", Scored(7, Hearts, Redoubled, West, 11, 3)),
    ("7HXX W 12 G3", Scored(7, Hearts, Redoubled, West, 12, 3)),
    ("7HXX W 13 G1", Scored(7, Hearts, Redoubled, West, 13, 1)),
    ("7HXX W 13 G2", Scored(7, Hearts, Redoubled, West, 13, 2)),
    ("7HX W 13 G3", Scored(7, Hearts, Doubled, West, 13, 3)),
    ("7HXX W 3 G3", Scored(7, Hearts, Redoubled, West, 3, 3)),
    ("7HXX W 1 G3", Scored(7, Hearts, Redoubled, West, 1, 3)),
    ("7HXX W 13", Scored(7, Hearts, Redoubled, West, 13, 0)),
    ("7HXX W 1", Scored(7, Hearts, Redoubled, West, 1, 0)),
    // 1C E 1, which a second digit may follow
    ("1C E 1", Scored(1, Clubs, Undoubled, East, 1, 0)),
    ("2C E 1", Scored(2, Clubs, Undoubled, East, 1, 0)),
    ("3C E 1", Scored(3, Clubs, Undoubled, East, 1, 0)),
    ("4C E 1", Scored(4, Clubs, Undoubled, East, 1, 0)),
    ("5C E 1", Scored(5, Clubs, Undoubled, East, 1, 0)),
    ("6C E 1", Scored(6, Clubs, Undoubled, East, 1, 0)),
    ("7C E 1", Scored(7, Clubs, Undoubled, East, 1, 0)),
    ("1D E 1", Scored(1, Diamonds, Undoubled, East, 1, 0)),
    ("1H E 1", Scored(1, Hearts, Undoubled, East, 1, 0)),
    ("1S E 1", Scored(1, Spades, Undoubled, East, 1, 0)),
    ("1N E 1", Scored(1, NoTrump, Undoubled, East, 1, 0)),
    ("1C N 1", Scored(1, Clubs, Undoubled, North, 1, 0)),
    ("1C S 1", Scored(1, Clubs, Undoubled, South, 1, 0)),
    ("1C W 1", Scored(1, Clubs, Undoubled, West, 1, 0)),
    ("1C E 0", Scored(1, Clubs, Undoubled, East, 0, 0)),
    ("1C E 2", Scored(1, Clubs, Undoubled, East, 2, 0)),
    ("1C E 3", Scored(1, Clubs, Undoubled, East, 3, 0)),
    ("1C E 4", Scored(1, Clubs, Undoubled, East, 4, 0)),
    ("1C E 5", Scored(1, Clubs, Undoubled, East, 5, 0)),
    ("1C E 6", Scored(1, Clubs, Undoubled, East, 6, 0)),
    ("1C E 7", Scored(1, Clubs, Undoubled, East, 7, 0)),
    ("1C E 8", Scored(1, Clubs, Undoubled, East, 8, 0)),
    ("1C E 9", Scored(1, Clubs, Undoubled, East, 9, 0)),
    ("1CX E 1", Scored(1, Clubs, Doubled, East, 1, 0)),
    ("1C E 10", Scored(1, Clubs, Undoubled, East, 10, 0)),
    ("1C E 11", Scored(1, Clubs, Undoubled, East, 11, 0)),
    ("1C E 12", Scored(1, Clubs, Undoubled, East, 12, 0)),
    ("1C E 13", Scored(1, Clubs, Undoubled, East, 13, 0)),
    // passed boards
    ("PASS", Passed(0)),
    ("PASS G1", Passed(1)),
    ("PASS G2", Passed(2)),
    ("PASS G3", Passed(3)),
    // averages
    ("AVE ++", Averages(Plus, Plus)),
    ("AVE +=", Averages(Plus, Even)),
    ("AVE +-", Averages(Plus, Minus)),
    ("AVE =+", Averages(Even, Plus)),
    ("AVE ==", Averages(Even, Even)),
    ("AVE =-", Averages(Even, Minus)),
    ("AVE -+", Averages(Minus, Plus)),
    ("AVE -=", Averages(Minus, Even)),
    ("AVE --", Averages(Minus, Minus)),
];

/// The slips that are damaged, byte by byte.
pub(crate) const DAMAGED: [&str; 7] = [
    "4SX N 10",
    "3N S 8",
    "7HXX W 13 G3",
    "1C E 1",
    "PASS",
    "PASS G1",
    "AVE +-",
];
