// The two sides of a table.
ghost use Rattle.std.specs.Prelude.{Some};
ghost use Rattle.plan.specs.Side.{side_name};

use std::fmt;

#[derive(Clone, Copy, PartialEq, Eq, Debug)]
pub enum Side {
    NorthSouth,
    EastWest,
}

impl fmt::Display for Side {
    ghost output = { λ side. Some (side_name side) };

    fn fmt<W: fmt::Write>(&self, f: &mut fmt::Formatter<W>) -> fmt::Result {
        f.write_str(match self {
            Side::NorthSouth => "North-South",
            Side::EastWest => "East-West",
        })
    }
}
