// Makes, writes and reads returns and slips, damages slips, and prints how many answers agree.

#![tactic(auto)]

mod damage;
mod handed_in;
mod not_slips;
mod slips;

use std::io;

fn main(rt: HostRuntime) -> io::Result<()> {
    println!(rt; "Returns made and refused: {}", handed_in::ranges())?;
    println!(rt; "Scores of returns: {}", handed_in::scores())?;
    println!(rt; "Slips written and read: {}", handed_in::slips())?;
    let contracts = handed_in::contracts();
    println!(rt; "Every contract in every group, written and read: {contracts}")?;
    println!(rt; "What is no slip, refused: {}", damage::not_slips())?;
    let long = damage::long(rt.alloc())?;
    println!(rt; "Slips with far too much behind them, refused: {long}")?;
    let damage = damage::damaged(rt.alloc())?;
    println!(rt; "Slips damaged in every byte, refused: {}", damage.refused)?;
    println!(rt;
        "Slips that the damage makes another slip: {}",
        damage.sound
    )
}
