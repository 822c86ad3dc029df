/// What a side is given for a board that it could not play.
#[derive(Clone, Copy, PartialEq, Eq, Debug)]
pub enum Average {
    Plus,
    Even,
    Minus,
}

impl Average {
    pub const ALL: [Average; 3] = [Average::Plus, Average::Even, Average::Minus];
}
