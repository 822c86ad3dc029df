// One round on a guide card.
ghost use Rattle.std.specs.Prelude.{Some};
ghost use Rattle.guide.specs.Cards.{place_text, line_text};

use crate::place::Place;
use plan::BoardsPerSet;
use std::fmt;

/// A round on a card: a place, or none where the pair sits out.
#[derive(Clone, Copy)]
pub struct CardLine {
    pub round: u8,
    pub place: Option<Place>,
    pub boards: BoardsPerSet,
}

/// As `table 3, East-West against pair 8`.
impl fmt::Display for Place {
    ghost output = { λ p. Some (place_text p) };

    fn fmt<W: fmt::Write>(&self, f: &mut fmt::Formatter<W>) -> fmt::Result {
        let (table, side, opponents) = (self.table, self.side, self.opponents);
        write!(f, "table {table}, {side} against pair {opponents}")
    }
}

/// A line of text, with its line feed.
impl fmt::Display for CardLine {
    ghost output = { λ l. Some (line_text l.round l.place l.boards.boards) };

    fn fmt<W: fmt::Write>(&self, f: &mut fmt::Formatter<W>) -> fmt::Result {
        let round = self.round;
        let Some(place) = self.place else {
            return writeln!(f, "  round {round}: sits out");
        };
        let boards = self.boards.of_set(place.set);
        writeln!(f, "  round {round}: {place}, {boards}")
    }
}
