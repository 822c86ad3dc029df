// The guide cards of an evening.
use guide::GuideCard;
use layer::{ArrowSwitch, MissingPair};
use movement::SkipMitchell;
use plan::{BoardsPerSet, Movement};
use refusal::Refusal;
use std::io;

/// What is played, to stand above the cards.
pub(crate) const EVENT: &str = "Guide cards: skip Mitchell, 4 tables, 3 rounds, 2 boards to a set.
Pair 6 is missing, and the arrow is switched from round 3 on.";

pub(crate) const BOARDS: u8 = 2;

pub(crate) fn event() -> Result<ArrowSwitch<MissingPair<SkipMitchell>>, Refusal> {
    let without = MissingPair::new(SkipMitchell::new(4, 3)?, 6)?;
    Ok(ArrowSwitch::new(without, 3)?)
}

/// The cards of all pairs.
pub(crate) fn print_cards<M: Movement>(
    rt: &impl Print,
    movement: &M,
    boards: BoardsPerSet,
) -> io::Result<()> {
    for pair in 1..=movement.pairs() {
        let card = GuideCard {
            movement,
            pair,
            boards,
        };
        print!(rt; "{card}")?;
    }
    Ok(())
}
