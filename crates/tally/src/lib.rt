// What the programs of trials share: a count of the figures that agree, and contracts with what they score.

#![tactic(auto)]

mod played;
mod refused;
mod tally;

pub use played::{PLAYED, Played};
pub use refused::refused_with;
pub use tally::Tally;
