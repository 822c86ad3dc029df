// What one score wins from another: the ways of comparing of Law 78 of the Laws of Duplicate Bridge.

#![tactic(auto)]

mod imps;
mod matchpoints;
mod total_points;
mod way;

pub use imps::Imps;
pub use matchpoints::Matchpoints;
pub use total_points::TotalPoints;
pub use way::{ComparePoints, Comparison, Constants, FixedConstants};
