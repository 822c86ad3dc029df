// Each table run against the library.
use crate::boards::{NO_CONTRACTS, NO_SCORES, VULNERABLE};
use crate::differences::{COMPARED, IMPS};
use crate::tables::Row;
use comparison::{Comparison, Constants, Imps, Matchpoints, TotalPoints};
use contract::{Contract, Declarer, Denomination, Doubling, Vulnerability};
use refusal::Refusal;
use scoring::Score;
use tally::{PLAYED, Played, Tally, refused_with};

/// The six figures of each row, with each of the four players as declarer.
pub(crate) fn table(rows: &[Row]) -> Tally {
    let mut tally = Tally::default();
    for Row(level, denomination, tricks, figures) in rows {
        // nobody is vulnerable on board 1, both sides are on board 4
        for (board, figures) in [1, 4].iter().zip(figures.chunks(3)) {
            for (doubling, expected) in Doubling::ALL.iter().zip(figures) {
                for declarer in Declarer::ALL.iter() {
                    let contract = Contract::new(
                        *level,
                        *denomination,
                        *doubling,
                        *declarer,
                        *tricks,
                    );
                    let expected = for_north_south(*declarer, *expected);
                    tally.check(scored(contract, *board) == Some(expected));
                }
            }
        }
    }
    tally
}

fn scored(contract: Result<Contract, Refusal>, board: u8) -> Option<i16> {
    Some(Score::of_contract(contract.ok()?, board).points())
}

fn for_north_south(declarer: Declarer, points: i16) -> i16 {
    match declarer {
        Declarer::North | Declarer::South => points,
        Declarer::East | Declarer::West => points.saturating_neg(),
    }
}

pub(crate) fn played() -> Tally {
    let mut tally = Tally::default();
    for played in PLAYED.iter() {
        let Played(level, denomination, doubling, declarer, tricks, board, expected) = *played;
        let contract = Contract::new(level, denomination, doubling, declarer, tricks);
        tally.check(scored(contract, board) == Some(expected));
    }
    tally
}

pub(crate) fn vulnerable() -> Tally {
    let mut tally = Tally::default();
    for (board, expected) in VULNERABLE.iter() {
        tally.check(Vulnerability::of_board(*board) == *expected);
    }
    tally
}

pub(crate) fn refused() -> Tally {
    let mut tally = Tally::default();
    for (level, tricks) in NO_CONTRACTS.iter() {
        let found = Contract::new(
            *level,
            Denomination::Clubs,
            Doubling::Undoubled,
            Declarer::North,
            *tricks,
        );
        tally.check(refused_with(found) == Some(13));
    }
    for points in NO_SCORES.iter() {
        tally.check(Score::new(*points).is_none());
    }
    tally
}

/// Every multiple of ten on the scale.
pub(crate) fn imps() -> Tally {
    let mut tally = Tally::default();
    for (first, last, expected) in IMPS.iter() {
        for difference in (*first..=*last).step_by(10) {
            tally.check(Imps::step(difference) == *expected);
        }
    }
    tally
}

pub(crate) fn compared() -> Tally {
    let mut tally = Tally::default();
    for (own, other, [matchpoints, imps, total]) in COMPARED.iter() {
        both_ways(&mut tally, &Matchpoints, *own, *other, *matchpoints);
        both_ways(&mut tally, &Imps, *own, *other, *imps);
        both_ways(&mut tally, &TotalPoints, *own, *other, *total);
    }
    tally
}

// What the two win adds up to twice the tie value.
fn both_ways<C: Comparison>(tally: &mut Tally, way: &C, own: i16, other: i16, expected: i32) {
    let (Some(own), Some(other)) = (Score::new(own), Score::new(other)) else {
        return tally.check(false);
    };
    let both = 2 * i32::from(way.constants().tie_value);
    tally.check(way.compare(own, other).0 == expected);
    tally.check(way.compare(other, own).0 == both.saturating_sub(expected));
}

/// The constants of the three ways, in the order of `Constants`.
const CONSTANTS: [(u16, u32, u8, u8); 3] = [(1, 1, 50, 1), (0, 10, 1, 2), (0, 500, 1, 3)];

pub(crate) fn constants() -> Tally {
    let mut tally = Tally::default();
    let found = [
        Matchpoints.constants(),
        Imps.constants(),
        TotalPoints.constants(),
    ];
    for (found, (tie_value, lift, scale, code)) in found.iter().zip(CONSTANTS.iter()) {
        let expected = Constants {
            tie_value: *tie_value,
            lift: *lift,
            scale: *scale,
            code: *code,
        };
        tally.check(*found == expected);
    }
    tally
}
