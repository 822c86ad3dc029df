// The guide card of a pair: its evening, round by round.
ghost use Rattle.std.specs.Prelude.{◌≡◌, Some};
ghost use Rattle.guide.specs.Places.{place_of};
ghost use Rattle.guide.specs.Cards.{card_text};

use crate::line::CardLine;
use crate::place::Place;
use plan::{BoardsPerSet, Field, Movement};
use std::fmt;

/// The card of one pair, to be printed.
#[derive(Drop)]
pub struct GuideCard<'m, M: Movement> {
    pub movement: &'m M,
    pub pair: u8,
    pub boards: BoardsPerSet,
}

impl<'m, M: Movement> GuideCard<'m, M> {
    /// The pair's place in a round, as a line of the card.
    pub fn line(&self, round: u8) -> CardLine
        ensures round { result.round ≡ round }
        ensures place { result.place ≡ place_of (M.Movement.plan self.now.movement.now) round self.now.pair }
        ensures boards { result.boards ≡ self.now.boards }
    {
        CardLine {
            round,
            place: Place::find(self.movement, round, self.pair),
            boards: self.boards,
        }
    }

    // The number that is printed as the pair's field: 0 where there is no such pair.
    fn field(&self) -> u8
        ensures { result ≡ (M.Movement.plan self.now.movement.now).field self.now.pair }
    {
        self.movement.field(self.pair).map_or(0, Field::number)
    }
}

/// The pair and its field, then a line for each round.
impl<'m, M: Movement> fmt::Display for GuideCard<'m, M> {
    ghost output = { λ c. Some (card_text (M.Movement.plan c.movement.now) c.pair c.boards.boards) };

    fn fmt<W: fmt::Write>(&self, f: &mut fmt::Formatter<W>) -> fmt::Result {
        let pair = self.pair;
        let field = self.field();
        writeln!(f, "Pair {pair}, field {field}")?;
        for round in 1..=self.movement.rounds() {
            let line = self.line(round);
            write!(f, "{line}")?;
        }
        Ok(())
    }
}
