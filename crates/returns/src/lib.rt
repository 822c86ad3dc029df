// What a table hands in for a board.

#![tactic(auto)]

mod average;
mod group;
mod returned;

pub use average::Average;
pub use group::Group;
pub use returned::Return;
