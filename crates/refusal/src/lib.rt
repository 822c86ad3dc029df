// Every refusal that a call of the library can answer, each under its number.

#![tactic(auto)]

ghost use Rattle.std.specs.Option.{option_map};
ghost use Rattle.std.specs.Ordering.{on};
ghost use Rattle.std.specs.Prelude.{◌≡◌, ◌==◌, ◌↔◌, ◌++◌, IsTrue, Some, codes, decimal};
ghost use Rattle.std.specs.Result.{result_err};
ghost use Rattle.refusal.specs.Numbers.{number_of, meaning_of};

use std::error::Error;
use std::fmt;

/// Why a call was refused. A refused call has changed nothing.
#[derive(Clone, Copy, PartialEq, Eq, Debug)]
pub enum Refusal {
    /// The movement is not made for this number of tables.
    TablesOutOfRange = 1,
    /// The movement has no such number of rounds.
    RoundsOutOfRange = 2,
    /// The missing pair, or the round of the arrow switch, is not one of the movement's.
    LayerOutOfRange = 3,
    /// A set holds 1 to 4 boards.
    BoardsPerSetOutOfRange = 4,
    /// The store has fewer records than the session needs.
    StoreTooShort = 5,
    /// No table of the first round is occupied.
    FirstRoundEmpty = 6,
    /// Every round of the movement has been called.
    NoRoundLeft = 7,
    /// The round has not been called.
    RoundNotCalled = 8,
    /// There is no such table, or nobody sits there in this round.
    TableNotOccupied = 9,
    /// The board is not in the set that stands at this table.
    BoardNotInSet = 10,
    /// The entry has a return already.
    AlreadyReturned = 11,
    /// The entry has no return yet.
    NotReturned = 12,
    /// A level, a number of tricks or a group is out of range.
    ReturnOutOfRange = 13,
    /// No round has been called.
    NoRoundCalled = 14,
    /// Some entry of the rounds called has no return.
    ReturnMissing = 15,
    /// The output is too short for what is to be written.
    OutputTooShort = 16,
    /// The board has no entry in the rounds called.
    BoardNotPlayed = 17,
    /// The bytes are not a slip.
    NotASlip = 20,
}

impl Refusal {
    /// The number under which directors know the refusal. No two refusals share one.
    pub fn number(self) -> u8
        ensures value { result ≡ number_of self }
        ensures distinct { (other : Refusal) → number_of other ≡ result → other ≡ self }
    {
        self as u8
    }

    /// Whether a call was refused with just this, and so with just this number. It compares by `==`, which by the last clause is
    /// the equality of numbers, also where a bound stands for the type.
    #[tactic(auto, using(crate::proofs::Same::equality))]
    pub fn refuses<T>(self, answer: &Result<T, Refusal>) -> bool
        ensures same { IsTrue result ↔ (result_err answer.now ≡ Some self) }
        ensures number { IsTrue result ↔ (option_map number_of (result_err answer.now) ≡ Some (number_of self)) }
        ensures equality { ⟦<Refusal as PartialEq>⟧.eq ≡ on number_of ◌==◌ }
    {
        match answer {
            Ok(_) => false,
            Err(refusal) => *refusal == self,
        }
    }

    /// The refusal in words.
    pub fn meaning(self) -> &'static str
        ensures { result.now ≡ meaning_of self }
    {
        match self {
            Refusal::TablesOutOfRange => "not a number of tables for this movement",
            Refusal::RoundsOutOfRange => "not a number of rounds for this movement",
            Refusal::LayerOutOfRange => "not a pair or a round of this movement",
            Refusal::BoardsPerSetOutOfRange => "a set holds 1 to 4 boards",
            Refusal::StoreTooShort => "the store has too few records",
            Refusal::FirstRoundEmpty => "nobody sits in the first round",
            Refusal::NoRoundLeft => "no round is left",
            Refusal::RoundNotCalled => "the round has not been called",
            Refusal::TableNotOccupied => "nobody sits at this table",
            Refusal::BoardNotInSet => "the board is not at this table",
            Refusal::AlreadyReturned => "there is a return already",
            Refusal::NotReturned => "there is no return yet",
            Refusal::ReturnOutOfRange => "level, tricks or group out of range",
            Refusal::NoRoundCalled => "no round has been called",
            Refusal::ReturnMissing => "a return is missing",
            Refusal::OutputTooShort => "the output is too short",
            Refusal::BoardNotPlayed => "the board has not been played",
            Refusal::NotASlip => "not a slip",
        }
    }
}

/// As `13: level, tricks or group out of range`.
// Written out, since no clause can name the text that a derive makes.
impl fmt::Display for Refusal {
    ghost output = { λ x. Some (decimal (number_of x) ++ (codes ": " ++ meaning_of x)) };

    fn fmt<W: fmt::Write>(&self, f: &mut fmt::Formatter<W>) -> fmt::Result {
        let number = self.number();
        let meaning = self.meaning();
        write!(f, "{number}: {meaning}")
    }
}

impl Error for Refusal {}
