// What a board scored at each table, and why.
use contract::{Contract, Vulnerability};
use scoring::{Outcome, Score};
use std::io;

/// North-South's score; a board without a contract was passed out.
pub(crate) fn score(board: u8, played: Option<Contract>) -> Score {
    match played {
        Some(contract) => Score::of_contract(contract, board),
        None => Score::passed_out(),
    }
}

pub(crate) fn print_result(
    rt: &impl Print,
    board: u8,
    table: usize,
    played: Option<Contract>,
) -> io::Result<()> {
    let points = score(board, played).points();
    println!(rt; "Table {table}: North-South score {points}")?;
    match played {
        None => println!(rt; "  passed out"),
        Some(contract) => {
            println!(rt; "  {contract}")?;
            let vulnerable = Vulnerability::of_board(board).applies_to(contract.declarer);
            print_outcome(rt, Outcome::of(contract, vulnerable))
        }
    }
}

fn print_outcome(rt: &impl Print, outcome: Outcome) -> io::Result<()> {
    match outcome {
        Outcome::Made(m) => println!(rt;
            "  made: trick points {}, game or part-score {}, slam {}, insult {}, overtricks {}",
            m.trick_points, m.game_premium, m.slam_premium, m.insult_premium, m.overtrick_points
        ),
        Outcome::Down(u) => println!(rt; "  down {}: undertricks cost {}", u.count, u.penalty),
    }
}
