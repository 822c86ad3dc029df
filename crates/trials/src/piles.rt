// Layers, one over the other, and what is said of a pair.
use crate::walks::{HOWELL, MOST_ASKED, check_seats, occupied};
use guide::Place;
use layer::{ArrowSwitch, LayerRefused, MissingPair};
use movement::{Howell, Mitchell};
use plan::{Boards, BoardsPerSet, Field, Movement, Side, are_equal};
use refusal::Refusal;
use tally::{Tally, refused_with};

/// Mitchell with five tables, rounds 1 to 5: pairs 2 and 9 are missing, and the arrow is switched from round 4 on.
const PILE: [[Option<(u8, u8, u8)>; 5]; 5] = [
    [
        Some((1, 6, 1)),
        None,
        Some((3, 8, 3)),
        None,
        Some((5, 10, 5)),
    ],
    [
        Some((1, 10, 2)),
        None,
        Some((3, 7, 4)),
        Some((4, 8, 5)),
        None,
    ],
    [
        None,
        None,
        Some((3, 6, 5)),
        Some((4, 7, 1)),
        Some((5, 8, 2)),
    ],
    [
        Some((8, 1, 4)),
        None,
        Some((10, 3, 1)),
        Some((6, 4, 2)),
        Some((7, 5, 3)),
    ],
    [
        Some((7, 1, 5)),
        None,
        None,
        Some((10, 4, 3)),
        Some((6, 5, 4)),
    ],
];

type Pile = MissingPair<ArrowSwitch<MissingPair<Mitchell>>>;

fn pile(first: u8, last: u8) -> Result<Pile, Refusal> {
    let short = MissingPair::new(Mitchell::new(5, 5)?, first)?;
    Ok(MissingPair::new(ArrowSwitch::new(short, 4)?, last)?)
}

fn check_pile<M: Movement>(tally: &mut Tally, pile: &M) {
    check_seats(tally, pile, &PILE);
    tally.check(occupied(pile) == 16);
    tally.check(pile.tables() == 5 && pile.rounds() == 5 && pile.sets() == 5 && pile.pairs() == 10);
    for pair in 0..=MOST_ASKED {
        let field = (1..=10).contains(&pair).then_some(1);
        // by its number, as it stands on a card
        tally.check(pile.field(pair).map(Field::number) == field);
    }
}

/// The pile, and that the order in which the pairs were missed makes no difference.
pub(crate) fn three_layers() -> Tally {
    let mut tally = Tally::default();
    let (Ok(one), Ok(other)) = (pile(2, 9), pile(9, 2)) else {
        return tally;
    };
    check_pile(&mut tally, &one);
    check_pile(&mut tally, &other);
    tally.check(are_equal(&one, &other));
    if let Ok(without) = pile(2, 2) {
        tally.check(!are_equal(&one, &without));
        tally.check(!are_equal(&without, &one));
    }
    tally
}

// That a refused layer has refusal 3 and gives back the movement, here the Howell with five rounds.
fn is_back(refused: &LayerRefused<Howell>, below: &Howell) -> bool {
    refused.refusal.number() == 3 && are_equal(&refused.movement, below)
}

/// Numbers that are in range for a layer, and numbers that are not.
pub(crate) fn refused() -> Tally {
    let mut tally = Tally::default();
    let Ok(below) = Howell::new(4, 5) else {
        return tally;
    };
    for number in 0..=MOST_ASKED {
        tally.check(match MissingPair::new(below, number) {
            Ok(_) => (1..=8).contains(&number),
            Err(e) => !(1..=8).contains(&number) && is_back(&e, &below),
        });
        tally.check(match ArrowSwitch::new(below, number) {
            Ok(_) => (2..=5).contains(&number),
            Err(e) => !(2..=5).contains(&number) && is_back(&e, &below),
        });
    }
    tally
}

// Both pairs at a table are found there, each with the other as opponents.
fn check_table<M: Movement>(tally: &mut Tally, m: &M, round: u8, table: u8, seat: (u8, u8, u8)) {
    let (north_south, east_west, set) = seat;
    let sides = [
        (Side::NorthSouth, north_south, east_west),
        (Side::EastWest, east_west, north_south),
    ];
    for (side, pair, opponents) in sides.iter() {
        let place = Place {
            table,
            side: *side,
            opponents: *opponents,
            set,
        };
        tally.check(Place::find(m, round, *pair) == Some(place));
    }
}

/// The place of each pair in each round of the Howell, and of pairs that sit out.
pub(crate) fn places() -> Tally {
    let mut tally = Tally::default();
    let Ok(m) = Howell::new(4, 7) else {
        return tally;
    };
    // not by `check_seats`, since each seat is looked up from both of its pairs
    for (round, seats) in (1..=7).zip(HOWELL.iter()) {
        for (table, seat) in (1..=4).zip(seats.iter()) {
            if let Some(seat) = seat {
                check_table(&mut tally, &m, round, table, *seat);
            }
        }
        tally.check(Place::find(&m, round, 0).is_none());
        tally.check(Place::find(&m, round, 9).is_none());
    }
    tally.check(Place::find(&m, 8, 1).is_none());
    tally
}

/// Boards to a set, a set, and its first and last board.
const BOARDS: [(u8, u8, u16, u16); 6] = [
    (1, 1, 1, 1),
    (2, 1, 1, 2),
    (2, 7, 13, 14),
    (3, 5, 13, 15),
    (4, 16, 61, 64),
    (4, 255, 1017, 1020),
];

pub(crate) fn boards() -> Tally {
    let mut tally = Tally::default();
    for (per_set, set, first, last) in BOARDS.iter() {
        let expected = Boards {
            first: *first,
            last: *last,
        };
        tally.check(BoardsPerSet::try_from(*per_set).is_ok_and(|boards| {
            boards.count() == *per_set && boards.of_set(*set) == expected
        }));
    }
    for per_set in [0, 5, 255].iter() {
        tally.check(refused_with(BoardsPerSet::try_from(*per_set)) == Some(4));
    }
    tally
}
