// A movement seats the pairs: its plan, the laws of every plan, and the questions that can be put to it.

#![tactic(auto)]

mod boards;
mod equal;
mod field;
mod movement;
mod range;
mod side;
mod sizes;

pub use boards::{Boards, BoardsPerSet};
pub use equal::are_equal;
pub use field::Field;
pub use movement::Movement;
pub use range::{is_within, one_field};
pub use side::Side;
pub use sizes::Sizes;
