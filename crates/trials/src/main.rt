// Runs the published tables against the library, and prints how many figures agree.

#![tactic(auto)]

mod boards;
mod differences;
mod figures;
mod piles;
mod refusals;
mod runs;
mod sizes;
mod tables;
mod walks;

use std::io;

fn scores(rt: &impl Print) -> io::Result<()> {
    println!(rt; "Contracts made exactly: {}", runs::table(&tables::MADE))?;
    println!(rt;
        "Contracts with overtricks: {}",
        runs::table(&tables::OVERTRICKS)
    )?;
    println!(rt;
        "Undertricks of a grand slam: {}",
        runs::table(&tables::GRAND_SLAMS_DOWN)
    )?;
    println!(rt;
        "Undertricks of lower contracts: {}",
        runs::table(&tables::DOWN)
    )?;
    println!(rt; "Scores on a board: {}", runs::played())?;
    println!(rt; "Vulnerability of a board: {}", runs::vulnerable())?;
    println!(rt;
        "Contracts and scores that do not exist: {}",
        runs::refused()
    )
}

fn comparisons(rt: &impl Print) -> io::Result<()> {
    println!(rt; "The IMP scale at every ten: {}", runs::imps())?;
    println!(rt; "Comparisons, both ways round: {}", runs::compared())?;
    println!(rt; "Constants of the ways of comparing: {}", runs::constants())
}

fn movements(rt: &impl Print) -> io::Result<()> {
    println!(rt; "Mitchell, walked table by table: {}", walks::mitchell())?;
    println!(rt;
        "Skip Mitchell, walked table by table: {}",
        walks::skip_mitchell()
    )?;
    println!(rt; "Howell, seat by seat: {}", walks::howell())?;
    println!(rt; "Sizes of movements: {}", sizes::all())?;
    println!(rt; "Sets, pairs and fields of movements: {}", sizes::fields())?;
    println!(rt; "Three layers over a Mitchell: {}", piles::three_layers())?;
    println!(rt; "Layers made and refused: {}", piles::refused())?;
    println!(rt; "Places of the pairs in a Howell: {}", piles::places())?;
    println!(rt; "Boards of a set: {}", piles::boards())
}

fn main(rt: HostRuntime) -> io::Result<()> {
    println!(rt;
        "Worked figures that are proved of the definitions: {}",
        figures::worked_figures()
    )?;
    for refusal in refusals::ALL.iter() {
        println!(rt; "Refusal {refusal}")?;
    }
    scores(&rt)?;
    comparisons(&rt)?;
    movements(&rt)
}
