// Guide cards: where a pair plays in each round, against whom and which boards, for any movement.

#![tactic(auto)]

mod card;
mod line;
mod place;

pub use card::GuideCard;
pub use line::CardLine;
pub use place::Place;
