// How a score is made up, for declarer's side.
ghost use Rattle.std.specs.Prelude.{◌+◌, ◌≤◌};

/// The parts of a made contract's score.
#[derive(Clone, Copy, Debug)]
pub struct MadeScore {
    pub trick_points: u16,
    /// For a game, or for a part-score.
    pub game_premium: u16,
    /// For a slam or a grand slam; 0 below.
    pub slam_premium: u16,
    /// For a contract made though doubled or redoubled.
    pub insult_premium: u16,
    pub overtrick_points: u16,
    ghost within: { trick_points + game_premium + slam_premium + insult_premium + overtrick_points ≤ 7600 },
}

/// What a contract that was not made costs.
#[derive(Clone, Copy, Debug)]
pub struct Undertricks {
    pub count: u8,
    pub penalty: u16,
    ghost within: { penalty ≤ 7600 },
}

#[derive(Clone, Copy, Debug)]
pub enum Outcome {
    Made(MadeScore),
    Down(Undertricks),
}
