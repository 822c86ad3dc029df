// Levels and tricks.
ghost use Rattle.std.specs.Prelude.{◌≡◌, decimal};
ghost use Rattle.slip.specs.Parts.{Takes, Always, IsLevel, IsTricks, IsEnd};

#[tactic(auto, using(crate::proofs::Digits::levels))]
pub(crate) fn take_level(input: &[u8]) -> Option<(u8, &[u8])>
    ensures { Takes IsLevel decimal Always input.now result }
{
    match input {
        [digit @ b'1'..=b'7', rest @ ..] => Some((digit - b'0', rest)),
        _ => None,
    }
}

/// Tricks, of two digits where there are two.
#[tactic(auto, using(crate::proofs::Digits::tricks))]
pub(crate) fn take_tricks(input: &[u8]) -> Option<(u8, &[u8])>
    ensures { Takes IsTricks decimal IsEnd input.now result }
{
    match input {
        [b'1', digit @ b'0'..=b'3', rest @ ..] => Some((10 + (digit - b'0'), rest)),
        [digit @ b'0'..=b'9', rest @ ..] => Some((digit - b'0', rest)),
        _ => None,
    }
}

/// A level as it is written. A helper: levels are 1 to 7.
#[tactic(auto, using(crate::proofs::Digits::written))]
pub(crate) fn text_of_level(level: u8) -> &'static str
    requires { IsLevel level }
    ensures { result.now ≡ decimal level }
{
    match level {
        1 => "1",
        2 => "2",
        3 => "3",
        4 => "4",
        5 => "5",
        6 => "6",
        _ => "7",
    }
}

/// Tricks as they are written. A helper: there are 13 at most.
#[tactic(auto, using(crate::proofs::Digits::written))]
pub(crate) fn text_of_tricks(tricks: u8) -> &'static str
    requires { IsTricks tricks }
    ensures { result.now ≡ decimal tricks }
{
    match tricks {
        0 => "0",
        1 => "1",
        2 => "2",
        3 => "3",
        4 => "4",
        5 => "5",
        6 => "6",
        7 => "7",
        8 => "8",
        9 => "9",
        10 => "10",
        11 => "11",
        12 => "12",
        _ => "13",
    }
}
