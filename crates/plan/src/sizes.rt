// How large a movement is.

/// The tables of a movement, its rounds, its sets of boards and its pairs.
#[derive(Clone, Copy, PartialEq, Eq, Debug)]
pub struct Sizes {
    pub tables: u8,
    pub rounds: u8,
    pub sets: u8,
    pub pairs: u8,
}
