// A contract as it was played: what was bid, who declared, and how many tricks were won.
ghost use Rattle.std.specs.Prelude.{◌≡◌, ◌≤◌, IfOk, IfErr};
ghost use Rattle.refusal.specs.declared.Refusal.TheVariants.{ReturnOutOfRange};

use refusal::Refusal;

#[derive(Clone, Copy, PartialEq, Eq, Debug)]
pub enum Denomination {
    Clubs,
    Diamonds,
    Hearts,
    Spades,
    NoTrump,
}

impl Denomination {
    /// Every denomination, from the lowest.
    pub const ALL: [Denomination; 5] = [
        Denomination::Clubs,
        Denomination::Diamonds,
        Denomination::Hearts,
        Denomination::Spades,
        Denomination::NoTrump,
    ];
}

#[derive(Clone, Copy, PartialEq, Eq, Debug)]
pub enum Doubling {
    Undoubled,
    Doubled,
    Redoubled,
}

impl Doubling {
    pub const ALL: [Doubling; 3] = [Doubling::Undoubled, Doubling::Doubled, Doubling::Redoubled];
}

#[derive(Clone, Copy, PartialEq, Eq, Debug)]
pub enum Declarer {
    North,
    East,
    South,
    West,
}

impl Declarer {
    /// Every player, around the table.
    pub const ALL: [Declarer; 4] = [
        Declarer::North,
        Declarer::East,
        Declarer::South,
        Declarer::West,
    ];
}

/// A level from 1 to 7 and at most 13 tricks: no other contract exists.
#[derive(Clone, Copy, PartialEq, Eq, Debug)]
pub struct Contract {
    pub level: u8,
    pub denomination: Denomination,
    pub doubling: Doubling,
    pub declarer: Declarer,
    /// The tricks that declarer's side won.
    pub tricks: u8,
    ghost lowest: { 1 ≤ level },
    ghost highest: { level ≤ 7 },
    ghost most_tricks: { tricks ≤ 13 },
}

impl Contract {
    /// Refused unless the level is 1 to 7 and the tricks are at most 13.
    pub fn new(
        level: u8,
        denomination: Denomination,
        doubling: Doubling,
        declarer: Declarer,
        tricks: u8,
    ) -> Result<Contract, Refusal>
        ensures made { IfOk result (λ c. (c.level ≡ level) × (c.denomination ≡ denomination) × (c.doubling ≡ doubling) × (c.declarer ≡ declarer) × (c.tricks ≡ tricks)) }
        ensures refused { IfErr result (λ e. (e ≡ ReturnOutOfRange) × ((1 ≤ level) × (level ≤ 7) × (tricks ≤ 13) → ⊥)) }
    {
        if !(1..=7).contains(&level) || tricks > 13 {
            return Err(Refusal::ReturnOutOfRange);
        }
        Ok(Contract {
            level,
            denomination,
            doubling,
            declarer,
            tricks,
        })
    }
}
