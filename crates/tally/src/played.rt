// Contracts on boards of every vulnerability, and what they score.
use contract::Declarer::{East, North, South, West};
use contract::Denomination::{Clubs, Diamonds, Hearts, NoTrump, Spades};
use contract::Doubling::{Doubled, Redoubled, Undoubled};
use contract::{Declarer, Denomination, Doubling};

/// A contract, the tricks, the board, and North-South's score. By position, so that a row of a table is one line.
#[derive(Clone, Copy)]
pub struct Played(
    pub u8,
    pub Denomination,
    pub Doubling,
    pub Declarer,
    pub u8,
    pub u8,
    pub i16,
);

pub const PLAYED: [Played; 15] = [
    Played(1, NoTrump, Redoubled, North, 13, 4, 3160),
    Played(7, NoTrump, Redoubled, North, 0, 4, -7600),
    Played(2, Hearts, Doubled, North, 8, 1, 470),
    Played(4, Spades, Doubled, North, 6, 1, -800),
    Played(6, Diamonds, Undoubled, North, 12, 4, 1370),
    Played(4, Spades, Undoubled, North, 10, 2, 620),
    Played(4, Spades, Undoubled, East, 10, 2, -420),
    Played(4, Spades, Undoubled, South, 10, 3, 420),
    Played(4, Spades, Undoubled, West, 10, 3, -620),
    Played(3, NoTrump, Undoubled, West, 9, 16, -600),
    Played(3, NoTrump, Undoubled, North, 9, 16, 400),
    Played(3, NoTrump, Doubled, East, 7, 2, 300),
    Played(3, NoTrump, Doubled, East, 7, 3, 500),
    Played(2, Clubs, Redoubled, South, 7, 5, -400),
    Played(7, NoTrump, Redoubled, East, 0, 4, 7600),
];
