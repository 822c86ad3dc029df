// Where a pair plays in a round.
ghost use Rattle.std.specs.Prelude.{◌≡◌, MatchOption};
ghost use Rattle.guide.specs.Places.{Plays, SitsOut, place_at, place_of};

use plan::{Movement, Side};

/// A pair's table in a round, the side on which it sits there, its opponents and the set of boards.
#[derive(Clone, Copy, PartialEq, Eq, Debug)]
pub struct Place {
    pub table: u8,
    pub side: Side,
    pub opponents: u8,
    pub set: u8,
}

impl Place {
    /// Where a pair plays in a round, or nothing where it sits out. It has no other place in that round.
    pub fn find<M: Movement>(movement: &M, round: u8, pair: u8) -> Option<Place>
        ensures value { result ≡ place_of (M.Movement.plan movement.now) round pair }
        ensures found { MatchOption result (SitsOut (M.Movement.plan movement.now) round pair) (Plays (M.Movement.plan movement.now) round pair) }
        ensures alone { MatchOption result Unit (λ p. (other : Place) → Plays (M.Movement.plan movement.now) round pair other → other ≡ p) }
    {
        (1..=movement.tables()).find_map(|table| at_table(movement, round, table, pair))
    }
}

// The place of a pair, if it is at this table.
fn at_table<M: Movement>(movement: &M, round: u8, table: u8, pair: u8) -> Option<Place>
    ensures { result ≡ place_at table pair ((M.Movement.plan movement.now).seat round table) }
{
    let (north_south, east_west, set) = movement.seat(round, table)?;
    let (side, opponents) = if pair == north_south {
        (Side::NorthSouth, east_west)
    } else if pair == east_west {
        (Side::EastWest, north_south)
    } else {
        return None;
    };
    Some(Place {
        table,
        side,
        opponents,
        set,
    })
}
