// The movements as the hall sees them: who walks where after a round, and what is passed on.
use movement::{Howell, Rotating, Skipping, Straight, Walk};
use plan::Movement;
use tally::Tally;

pub(crate) const ODD: [u8; 7] = [3, 5, 7, 9, 11, 13, 15];

pub(crate) const EVEN: [u8; 7] = [4, 6, 8, 10, 12, 14, 16];

/// Rounds 1 to 7 of the Howell, tables 1 to 4: North-South pair, East-West pair, set.
pub(crate) const HOWELL: [[Option<(u8, u8, u8)>; 4]; 7] = [
    [
        Some((8, 1, 1)),
        Some((3, 4, 6)),
        Some((5, 7, 4)),
        Some((2, 6, 7)),
    ],
    [
        Some((8, 2, 2)),
        Some((4, 5, 7)),
        Some((6, 1, 5)),
        Some((3, 7, 1)),
    ],
    [
        Some((8, 3, 3)),
        Some((5, 6, 1)),
        Some((7, 2, 6)),
        Some((4, 1, 2)),
    ],
    [
        Some((8, 4, 4)),
        Some((6, 7, 2)),
        Some((1, 3, 7)),
        Some((5, 2, 3)),
    ],
    [
        Some((8, 5, 5)),
        Some((7, 1, 3)),
        Some((2, 4, 1)),
        Some((6, 3, 4)),
    ],
    [
        Some((8, 6, 6)),
        Some((1, 2, 4)),
        Some((3, 5, 2)),
        Some((7, 4, 5)),
    ],
    [
        Some((8, 7, 7)),
        Some((2, 3, 5)),
        Some((4, 6, 3)),
        Some((1, 5, 6)),
    ],
];

/// The largest number of a round or a table that is asked for: no movement has so many.
pub(crate) const MOST_ASKED: u8 = 20;

// The table that a pair walks to.
fn up(tables: u8, table: u8) -> u8 {
    if table < tables { table + 1 } else { 1 }
}

// The table that a set is passed to.
fn down(tables: u8, table: u8) -> u8 {
    if table > 1 { table - 1 } else { tables }
}

// Follows what starts at each table: after each round `next` says at which table it is, and `is_there` whether it is found there.
fn follow<M: Movement, N: Fn(u8, u8) -> u8, F: Fn(u8, u8, (u8, u8, u8)) -> bool>(
    tally: &mut Tally,
    m: &M,
    next: N,
    is_there: F,
)
    requires next { N.IsAlwaysCallable next }
    requires is_there { F.IsAlwaysCallable is_there }
{
    for start in 1..=m.tables() {
        // a loop, since the table of a round comes from the round before
        let mut table = start;
        for round in 1..=m.rounds() {
            let seat = m.seat(round, table);
            tally.check(seat.is_some_and(|seat| is_there(start, table, seat)));
            table = next(round, table);
        }
    }
}

// Each East-West pair walks up a table after a round, and once more after round `skip`, if there is one. Each set is passed down a
// table.
fn walk<M: Movement>(tally: &mut Tally, m: &M, skip: Option<u8>) {
    let tables = m.tables();
    follow(
        tally,
        m,
        |round, table| {
            let table = up(tables, table);
            if skip == Some(round) {
                up(tables, table)
            } else {
                table
            }
        },
        |start, table, (north_south, east_west, _)| {
            north_south == table && east_west == tables.saturating_add(start)
        },
    );
    follow(
        tally,
        m,
        |_, table| down(tables, table),
        |start, _, (_, _, set)| set == start,
    );
}

fn occupied_in<M: Movement>(m: &M, round: u8) -> usize {
    (0..=MOST_ASKED)
        .filter(|table| m.seat(round, *table).is_some())
        .count()
}

/// How many tables are occupied, over all the rounds and tables that are asked for.
pub(crate) fn occupied<M: Movement>(m: &M) -> usize {
    (0..=MOST_ASKED)
        .map(|round| occupied_in(m, round))
        .fold(0, usize::saturating_add)
}

// Every table of every round is occupied, and none besides.
fn is_full<M: Movement>(m: &M, tables: u8, rounds: u8) -> bool {
    m.tables() == tables
        && m.rounds() == rounds
        && occupied(m) == usize::from(tables) * usize::from(rounds)
}

// The movements with these numbers of tables and with each number of rounds that is allowed.
fn walked<W: Walk, R: Fn(u8) -> u8, S: Fn(u8) -> Option<u8>>(
    sizes: &[u8],
    most_rounds: R,
    skip: S,
) -> Tally
    requires most_rounds { R.IsAlwaysCallable most_rounds }
    requires skip { S.IsAlwaysCallable skip }
{
    let mut tally = Tally::default();
    for tables in sizes {
        for rounds in 1..=most_rounds(*tables) {
            if let Ok(m) = Rotating::<W>::new(*tables, rounds) {
                walk(&mut tally, &m, skip(*tables));
                tally.check(is_full(&m, *tables, rounds));
            }
        }
    }
    tally
}

pub(crate) fn mitchell() -> Tally {
    walked::<Straight, _, _>(&ODD, |tables| tables, |_| None)
}

pub(crate) fn skip_mitchell() -> Tally {
    walked::<Skipping, _, _>(
        &EVEN,
        |tables| tables.saturating_sub(1),
        |tables| Some(tables / 2),
    )
}

/// The movement seats the pairs as the table does, which has a row for each round.
pub(crate) fn check_seats<M: Movement, const TABLES: usize>(
    tally: &mut Tally,
    m: &M,
    rows: &[[Option<(u8, u8, u8)>; TABLES]],
) {
    for (round, seats) in (1..=m.rounds()).zip(rows) {
        for (table, seat) in (1..=m.tables()).zip(seats) {
            tally.check(m.seat(round, table) == *seat);
        }
    }
}

pub(crate) fn howell() -> Tally {
    let mut tally = Tally::default();
    for rounds in 1..=7 {
        let Ok(m) = Howell::new(4, rounds) else {
            continue;
        };
        check_seats(&mut tally, &m, &HOWELL);
        tally.check(is_full(&m, 4, rounds));
    }
    tally
}
