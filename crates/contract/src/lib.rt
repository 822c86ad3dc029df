// A contract as it was played, in words too, and who is vulnerable on which board.

#![tactic(auto)]

mod contract;
mod vulnerability;
mod words;

pub use contract::{Contract, Declarer, Denomination, Doubling};
pub use vulnerability::Vulnerability;
