// Returns: which there are, what they score, and their slips.
use crate::slips::SLIPS;
use contract::{Declarer, Denomination, Doubling};
use returns::{Average, Return};
use tally::{PLAYED, Played, Tally, refused_with};

// What an output is filled with before a slip is written to it.
const UNTOUCHED: u8 = b'?';

// The number of the refusal that is due.
fn due(in_range: bool) -> Option<u8> {
    if in_range { None } else { Some(13) }
}

/// Levels 0 to 9, tricks 0 to 15 and groups 0 to 5.
pub(crate) fn ranges() -> Tally {
    let mut tally = Tally::default();
    for level in 0..=9 {
        for tricks in 0..=15 {
            for group in 0..=5 {
                let returned = Return::scored(
                    level,
                    Denomination::Clubs,
                    Doubling::Undoubled,
                    Declarer::North,
                    tricks,
                    group,
                );
                let in_range = level != 0 && level < 8 && tricks < 14 && group < 4;
                tally.check(refused_with(returned) == due(in_range));
            }
        }
    }
    for group in 0..=255 {
        tally.check(refused_with(Return::passed(group)) == due(group < 4));
    }
    tally
}

/// The scores of contracts on a board, whatever the group; of a passed board and of averages, on every board.
pub(crate) fn scores() -> Tally {
    let mut tally = Tally::default();
    for played in PLAYED.iter() {
        let Played(level, denomination, doubling, declarer, tricks, board, expected) = *played;
        for group in 0..4 {
            let returned = Return::scored(
                level,
                denomination,
                doubling,
                declarer,
                tricks,
                group,
            ).ok();
            tally.check(points(returned, board) == Some(expected));
        }
    }
    let averages = Return::Averages {
        north_south: Average::Plus,
        east_west: Average::Even,
    };
    for board in 0..=255 {
        tally.check(points(Return::passed(1).ok(), board) == Some(0));
        tally.check(points(Some(averages), board).is_none());
    }
    tally
}

fn points(returned: Option<Return>, board: u8) -> Option<i16> {
    Some(returned?.score(board)?.points())
}

// From there on every byte is as it was.
fn check_untouched(tally: &mut Tally, out: &[u8], from: usize) {
    for byte in out.iter().skip(from) {
        tally.check(*byte == UNTOUCHED);
    }
}

// The slip stands first in the output, and behind it what stood there before.
fn check_written(tally: &mut Tally, returned: Return, slip: &[u8], out: &mut [u8]) {
    let n = slip.len();
    tally.check(slip::write(returned, out).ok() == Some(n));
    tally.check(out.starts_with(slip));
    check_untouched(tally, out, n);
}

fn check_too_short(tally: &mut Tally, returned: Return, out: &mut [u8]) {
    tally.check(refused_with(slip::write(returned, out)) == Some(16));
    check_untouched(tally, out, 0);
}

// Written to an output that is longer and to one that fits, refused by every shorter one, and read.
fn check_slip(tally: &mut Tally, returned: Option<Return>, slip: &[u8]) {
    let n = slip.len();
    let Some(returned) = returned else {
        return tally.check(false);
    };
    if n > 16 {
        return tally.check(false);
    }
    check_written(tally, returned, slip, &mut [UNTOUCHED; 16]);
    check_written(tally, returned, slip, &mut [UNTOUCHED; 16][0..n]);
    // over lengths, which are what is tried
    for shorter in 0..n {
        check_too_short(tally, returned, &mut [UNTOUCHED; 16][0..shorter]);
    }
    tally.check(slip::read(slip).ok() == Some(returned));
}

/// Every slip of the table.
pub(crate) fn slips() -> Tally {
    let mut tally = Tally::default();
    for (slip, said) in SLIPS.iter() {
        check_slip(&mut tally, said.returned(), slip.as_bytes());
    }
    tally
}

fn check_back(tally: &mut Tally, returned: Option<Return>) {
    let mut out = [0; 16];
    let Some(returned) = returned else {
        return tally.check(false);
    };
    match slip::write(returned, &mut out) {
        Ok(n) if n <= 16 => tally.check(slip::read(&out[0..n]).ok() == Some(returned)),
        _ => tally.check(false),
    }
}

fn check_contracts(tally: &mut Tally, level: u8, denomination: Denomination) {
    for doubling in Doubling::ALL.iter() {
        for declarer in Declarer::ALL.iter() {
            for tricks in 0..=13 {
                for group in 0..=3 {
                    let returned = Return::scored(
                        level,
                        denomination,
                        *doubling,
                        *declarer,
                        tricks,
                        group,
                    );
                    check_back(tally, returned.ok());
                }
            }
        }
    }
}

/// Every contract in every group, written and read.
pub(crate) fn contracts() -> Tally {
    let mut tally = Tally::default();
    for level in 1..=7 {
        for denomination in Denomination::ALL.iter() {
            check_contracts(&mut tally, level, *denomination);
        }
    }
    tally
}
