// How large a movement may be, and who is in which field.
use crate::walks::{EVEN, MOST_ASKED, ODD};
use movement::{Howell, Mitchell, Rotating, SkipMitchell, Skipping, Straight, Walk};
use plan::{Field, Movement};
use tally::{Tally, refused_with};

// The number of the refusal that is due: 1 for the tables, then 2 for the rounds.
fn due(has_tables: bool, rounds: u8, most: u8) -> Option<u8> {
    if !has_tables {
        Some(1)
    } else if !(1..=most).contains(&rounds) {
        Some(2)
    } else {
        None
    }
}

/// Every number of tables with every number of rounds.
pub(crate) fn all() -> Tally {
    let mut tally = Tally::default();
    for tables in 0..=MOST_ASKED {
        for rounds in 0..=MOST_ASKED {
            let mitchell = refused_with(Mitchell::new(tables, rounds));
            tally.check(mitchell == due(ODD.contains(&tables), rounds, tables));
            let skip = refused_with(SkipMitchell::new(tables, rounds));
            tally.check(skip == due(EVEN.contains(&tables), rounds, tables.saturating_sub(1)));
            let howell = refused_with(Howell::new(tables, rounds));
            tally.check(howell == due(tables == 4, rounds, 7));
        }
    }
    tally
}

// So many sets and pairs, the first of them in field 1 and the others in field 2.
fn check_fields<M: Movement>(tally: &mut Tally, m: &M, sets: u8, first: u8, pairs: u8) {
    tally.check(m.sets() == sets);
    tally.check(m.pairs() == pairs);
    for pair in 0..=255 {
        let field = if !(1..=pairs).contains(&pair) {
            None
        } else if pair > first {
            Some(2)
        } else {
            Some(1)
        };
        // by its number, as it stands on a card
        tally.check(m.field(pair).map(Field::number) == field);
    }
}

// As many sets as tables, and half of the pairs in each field.
fn check_rotating<W: Walk>(tally: &mut Tally, sizes: &[u8]) {
    for tables in sizes {
        if let Ok(m) = Rotating::<W>::new(*tables, 1) {
            check_fields(tally, &m, *tables, *tables, tables.saturating_mul(2));
        }
    }
}

pub(crate) fn fields() -> Tally {
    let mut tally = Tally::default();
    check_rotating::<Straight>(&mut tally, &ODD);
    check_rotating::<Skipping>(&mut tally, &EVEN);
    if let Ok(m) = Howell::new(4, 1) {
        check_fields(&mut tally, &m, 7, 8, 8);
    }
    tally
}
