// What a made contract scores, part by part. Each rule is a function of its own, a small table as in the law, and takes just what
// the rule reads: a struct of the contract and the vulnerability would hide which rules read both.
ghost use Rattle.std.specs.Prelude.{◌≡◌};
ghost use Rattle.scoring.specs.Law.{trick_value, first_trick_extra, multiplier, trick_points_of, game_premium_of, slam_premium_of, insult_premium_of, overtrick_value};

use contract::{Contract, Denomination, Doubling};

fn trick_value(denomination: Denomination) -> u16
    ensures { result ≡ trick_value denomination }
{
    match denomination {
        Denomination::Clubs | Denomination::Diamonds => 20,
        Denomination::Hearts | Denomination::Spades | Denomination::NoTrump => 30,
    }
}

// What the first trick counts above the others.
fn first_trick_extra(denomination: Denomination) -> u16
    ensures { result ≡ first_trick_extra denomination }
{
    match denomination {
        Denomination::NoTrump => 10,
        _ => 0,
    }
}

fn multiplier(doubling: Doubling) -> u16
    ensures { result ≡ multiplier doubling }
{
    match doubling {
        Doubling::Undoubled => 1,
        Doubling::Doubled => 2,
        Doubling::Redoubled => 4,
    }
}

pub(crate) fn trick_points(c: Contract) -> u16
    ensures { result ≡ trick_points_of c }
{
    let bid = u16::from(c.level) * trick_value(c.denomination) + first_trick_extra(c.denomination);
    bid * multiplier(c.doubling)
}

// A game is judged on the trick points as doubled.
pub(crate) fn game_premium(c: Contract, vulnerable: bool) -> u16
    ensures { result ≡ game_premium_of vulnerable c }
{
    match (trick_points(c) >= 100, vulnerable) {
        (false, _) => 50,
        (true, false) => 300,
        (true, true) => 500,
    }
}

pub(crate) fn slam_premium(level: u8, vulnerable: bool) -> u16
    ensures { result ≡ slam_premium_of vulnerable level }
{
    match (level, vulnerable) {
        (6, false) => 500,
        (6, true) => 750,
        (7, false) => 1000,
        (7, true) => 1500,
        _ => 0,
    }
}

pub(crate) fn insult_premium(doubling: Doubling) -> u16
    ensures { result ≡ insult_premium_of doubling }
{
    match doubling {
        Doubling::Undoubled => 0,
        Doubling::Doubled => 50,
        Doubling::Redoubled => 100,
    }
}

pub(crate) fn overtrick_value(c: Contract, vulnerable: bool) -> u16
    ensures { result ≡ overtrick_value vulnerable c.denomination c.doubling }
{
    let doubled = if vulnerable { 200 } else { 100 };
    match c.doubling {
        Doubling::Undoubled => trick_value(c.denomination),
        Doubling::Doubled => doubled,
        Doubling::Redoubled => 2 * doubled,
    }
}
