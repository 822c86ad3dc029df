// Contracts in words.
ghost use Rattle.std.specs.Prelude.{Some};
ghost use Rattle.contract.specs.Words.{denomination_words, doubling_words, declarer_words, contract_words, vulnerability_words};

use crate::contract::{Contract, Declarer, Denomination, Doubling};
use crate::vulnerability::Vulnerability;
use std::fmt;

impl fmt::Display for Denomination {
    ghost output = { λ d. Some (denomination_words d) };

    fn fmt<W: fmt::Write>(&self, f: &mut fmt::Formatter<W>) -> fmt::Result {
        f.write_str(match self {
            Denomination::Clubs => "clubs",
            Denomination::Diamonds => "diamonds",
            Denomination::Hearts => "hearts",
            Denomination::Spades => "spades",
            Denomination::NoTrump => "no-trump",
        })
    }
}

/// As it stands behind a denomination: nothing where nobody doubled.
impl fmt::Display for Doubling {
    ghost output = { λ d. Some (doubling_words d) };

    fn fmt<W: fmt::Write>(&self, f: &mut fmt::Formatter<W>) -> fmt::Result {
        f.write_str(match self {
            Doubling::Undoubled => "",
            Doubling::Doubled => " doubled",
            Doubling::Redoubled => " redoubled",
        })
    }
}

impl fmt::Display for Declarer {
    ghost output = { λ d. Some (declarer_words d) };

    fn fmt<W: fmt::Write>(&self, f: &mut fmt::Formatter<W>) -> fmt::Result {
        f.write_str(match self {
            Declarer::North => "North",
            Declarer::East => "East",
            Declarer::South => "South",
            Declarer::West => "West",
        })
    }
}

/// As `4 spades doubled by North, 10 tricks`.
impl fmt::Display for Contract {
    ghost output = { λ c. Some (contract_words c) };

    fn fmt<W: fmt::Write>(&self, f: &mut fmt::Formatter<W>) -> fmt::Result {
        let (level, denomination, doubling) = (self.level, self.denomination, self.doubling);
        let (declarer, tricks) = (self.declarer, self.tricks);
        write!(
            f,
            "{level} {denomination}{doubling} by {declarer}, {tricks} tricks"
        )
    }
}

impl fmt::Display for Vulnerability {
    ghost output = { λ v. Some (vulnerability_words v) };

    fn fmt<W: fmt::Write>(&self, f: &mut fmt::Formatter<W>) -> fmt::Result {
        f.write_str(match self {
            Vulnerability::Neither => "nobody vulnerable",
            Vulnerability::NorthSouth => "North-South vulnerable",
            Vulnerability::EastWest => "East-West vulnerable",
            Vulnerability::Both => "both sides vulnerable",
        })
    }
}
