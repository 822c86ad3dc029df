// Layers: what happens to a movement on the night, over any movement, layers included.

#![tactic(auto)]

mod arrow_switch;
mod missing_pair;
mod refused;

pub use arrow_switch::ArrowSwitch;
pub use missing_pair::MissingPair;
pub use refused::LayerRefused;
