// A return, as it is made of numbers, and what it scores.
ghost use Rattle.std.specs.Prelude.{◌≡◌, IfOk, IfErr};
ghost use Rattle.std.specs.Option.{option_map};
ghost use Rattle.refusal.specs.declared.Refusal.TheVariants.{ReturnOutOfRange};
ghost use Rattle.returns.specs.Returns.{ScoredFrom, PassedFrom, InRange, GroupRange, score_of};

use crate::average::Average;
use crate::group::Group;
use contract::{Contract, Declarer, Denomination, Doubling};
use refusal::Refusal;
use scoring::Score;

/// The result of a board at a table.
#[derive(Clone, Copy, PartialEq, Eq, Debug)]
pub enum Return {
    Scored {
        contract: Contract,
        group: Group,
    },
    Passed {
        group: Group,
    },
    /// The board was not played, and each side is given an average.
    Averages {
        north_south: Average,
        east_west: Average,
    },
}

impl Return {
    /// Refused unless the level is 1 to 7, the tricks are at most 13 and the group is at most 3.
    // It takes the numbers and no `Contract`, which would ask its caller to have made one.
    pub fn scored(
        level: u8,
        denomination: Denomination,
        doubling: Doubling,
        declarer: Declarer,
        tricks: u8,
        group: u8,
    ) -> Result<Return, Refusal>
        ensures made { IfOk result (λ t. ScoredFrom level denomination doubling declarer tricks group t) }
        ensures refused { IfErr result (λ e. (e ≡ ReturnOutOfRange) × (InRange level tricks group → ⊥)) }
    {
        let contract = Contract::new(level, denomination, doubling, declarer, tricks)?;
        let group = Group::try_from(group)?;
        Ok(Return::Scored { contract, group })
    }

    /// Refused unless the group is at most 3.
    pub fn passed(group: u8) -> Result<Return, Refusal>
        ensures made { IfOk result (λ t. PassedFrom group t) }
        ensures refused { IfErr result (λ e. (e ≡ ReturnOutOfRange) × (GroupRange group → ⊥)) }
    {
        let group = Group::try_from(group)?;
        Ok(Return::Passed { group })
    }

    /// North-South's score on a board of this number: that of the contract, nothing for a passed board. Averages have none.
    pub fn score(self, board: u8) -> Option<Score>
        ensures { option_map (λ s. s.points) result ≡ score_of board self }
    {
        match self {
            Return::Scored { contract, .. } => Some(Score::of_contract(contract, board)),
            Return::Passed { .. } => Some(Score::passed_out()),
            Return::Averages { .. } => None,
        }
    }
}
