// What a contract scores at duplicate bridge, by Law 77 of the Laws of Duplicate Bridge.

#![tactic(auto)]

mod down;
mod made;
mod outcome;
mod score;
mod scorer;

pub use outcome::{MadeScore, Outcome, Undertricks};
pub use score::Score;
