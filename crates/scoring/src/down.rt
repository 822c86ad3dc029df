// What undertricks cost.
ghost use Rattle.std.specs.Prelude.{◌≡◌, ◌≤◌};
ghost use Rattle.scoring.specs.Law.{undertrick, penalty};

use contract::Doubling;

// The undertrick that is the `place`-th, from 1.
fn undertrick(doubling: Doubling, vulnerable: bool, place: u8) -> u16
    ensures { result ≡ undertrick vulnerable doubling place }
{
    let doubled = match (place, vulnerable) {
        (0 | 1, false) => 100,
        (0 | 1, true) => 200,
        (2 | 3, false) => 200,
        _ => 300,
    };
    match (doubling, vulnerable) {
        (Doubling::Undoubled, false) => 50,
        (Doubling::Undoubled, true) => 100,
        (Doubling::Doubled, _) => doubled,
        (Doubling::Redoubled, _) => 2 * doubled,
    }
}

// All of them together. A helper: a contract goes down by 13 at most.
#[tactic(auto, using(crate::proofs::Penalties::penalties))]
pub(crate) fn penalty(doubling: Doubling, vulnerable: bool, undertricks: u8) -> u16
    requires { undertricks ≤ 13 }
    ensures { result ≡ penalty vulnerable doubling undertricks }
{
    // A loop, since the sum of a chain over a range is not proved to fit.
    let mut sum = 0;
    for place in 0..undertricks {
        sum += undertrick(doubling, vulnerable, place + 1);
    }
    sum
}
