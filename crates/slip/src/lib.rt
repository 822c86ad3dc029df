// The slip that a table hands in: a return as bytes.

#![tactic(auto)]

mod group;
mod numbers;
mod reader;
mod symbol;
mod writer;

pub use reader::read;
pub use writer::write;
