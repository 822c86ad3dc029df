// The guide cards of an evening; then one board as it was played at several tables: what each table scored and why, and how
// the tables compare.

#![tactic(auto)]

mod board;
mod cards;
mod tables;

use contract::Declarer::{East, North, South, West};
use contract::Denomination::{Diamonds, Hearts, Spades};
use contract::Doubling::{Doubled, Redoubled, Undoubled};
use contract::{Contract, Declarer, Denomination, Doubling, Vulnerability};
use plan::BoardsPerSet;
use refusal::Refusal;
use scoring::Score;
use std::io;

const BOARD: u8 = 7;

/// Level, denomination, doubling, declarer and tricks.
type Played = (u8, Denomination, Doubling, Declarer, u8);

/// What came in from the tables; `None` is a board that was passed out.
const PLAYED: [Option<Played>; 6] = [
    Some((4, Spades, Undoubled, North, 11)),
    Some((6, Spades, Undoubled, South, 12)),
    Some((5, Diamonds, Doubled, West, 8)),
    Some((2, Hearts, Redoubled, East, 9)),
    None,
    Some((4, Spades, Undoubled, South, 11)),
];

fn contract(played: Option<Played>) -> Result<Option<Contract>, Refusal> {
    let Some((level, denomination, doubling, declarer, tricks)) = played else {
        return Ok(None);
    };
    let contract = Contract::new(level, denomination, doubling, declarer, tricks)?;
    Ok(Some(contract))
}

// An array, so that the board is printed before anything is allocated.
fn results() -> Result<[Option<Contract>; 6], Refusal> {
    PLAYED.try_map(contract)
}

fn print_board(rt: &impl Print, results: &[Option<Contract>]) -> io::Result<()> {
    let vulnerability = Vulnerability::of_board(BOARD);
    let tables = results.len();
    println!(rt; "\nBoard {BOARD}, {vulnerability}, was played at {tables} tables.")?;
    for (i, played) in results.iter().enumerate() {
        board::print_result(rt, BOARD, i + 1, *played)?;
    }
    println!(rt; "{}", tables::COMPARING)
}

fn run(rt: &HostRuntime) -> anyhow::Result<()> {
    println!(rt; "{}", cards::EVENT)?;
    cards::print_cards(rt, &cards::event()?, BoardsPerSet::try_from(cards::BOARDS)?)?;
    let results = results()?;
    print_board(rt, &results)?;
    let scores: Vec<Score> = results
        .iter()
        .map(|played| board::score(BOARD, *played))
        .collect(rt.alloc())?;
    tables::print_comparisons(rt, scores.as_slice())?;
    Ok(())
}

fn main(rt: HostRuntime) -> anyhow::Result<()> {
    run(&rt)
}
