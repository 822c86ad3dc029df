// What is written as one of a few texts: denominations, doublings, declarers and averages.
ghost use Rattle.std.specs.Prelude.{◌≡◌, ℕ, List, ◌++◌, Contains};
ghost use Rattle.slip.specs.Letters.{denomination_text, doubling_part, declarer_text, average_text};
ghost use Rattle.slip.specs.Parts.{Takes, Always};
ghost use Rattle.std.proofs.Common.{rules};

use contract::{Declarer, Denomination, Doubling};
use returns::Average;

/// A part of a slip that is one of a few texts. No text begins with another.
pub(crate) trait Symbol: Copy {
    ghost text: { Self → List ℕ };

    fn text(self) -> &'static str
        ensures { result.now ≡ text self };

    ghost apart: { (x y : Self) (r s : List ℕ) → text x ++ r ≡ text y ++ s → x ≡ y };
}

impl Symbol for Denomination {
    ghost text = { denomination_text };

    ghost apart = { Prim.search rules };

    fn text(self) -> &'static str {
        match self {
            Denomination::Clubs => "C",
            Denomination::Diamonds => "D",
            Denomination::Hearts => "H",
            Denomination::Spades => "S",
            Denomination::NoTrump => "N",
        }
    }
}

/// Written with the space behind it, since `X` alone would begin `XX` too.
impl Symbol for Doubling {
    ghost text = { doubling_part };

    ghost apart = { Prim.search rules };

    fn text(self) -> &'static str {
        match self {
            Doubling::Undoubled => " ",
            Doubling::Doubled => "X ",
            Doubling::Redoubled => "XX ",
        }
    }
}

impl Symbol for Declarer {
    ghost text = { declarer_text };

    ghost apart = { Prim.search rules };

    fn text(self) -> &'static str {
        match self {
            Declarer::North => "N",
            Declarer::East => "E",
            Declarer::South => "S",
            Declarer::West => "W",
        }
    }
}

impl Symbol for Average {
    ghost text = { average_text };

    ghost apart = { Prim.search rules };

    fn text(self) -> &'static str {
        match self {
            Average::Plus => "+",
            Average::Even => "=",
            Average::Minus => "-",
        }
    }
}

/// Reads one of these symbols.
pub(crate) fn take_symbol<'a, S: Symbol>(all: &[S], input: &'a [u8]) -> Option<(S, &'a [u8])>
    ensures { Takes (Contains all.now) S.Symbol.text Always input.now result }
{
    let symbol = all
        .iter()
        .find(|symbol| input.starts_with(symbol.text().as_bytes()))?;
    Some((*symbol, &input[symbol.text().len()..]))
}
