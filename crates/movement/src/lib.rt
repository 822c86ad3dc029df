// Three movements: Mitchell, skip Mitchell and the Howell for four tables.

#![tactic(auto)]

mod circle;
mod howell;
mod mitchell;
mod rotating;
mod sizes;
mod skip_mitchell;
mod walk;

pub use howell::Howell;
pub use mitchell::{Mitchell, Straight};
pub use rotating::Rotating;
pub use skip_mitchell::{SkipMitchell, Skipping};
pub use walk::Walk;
