// Slips that are damaged, and what reading them must answer.
use crate::not_slips::NOT_SLIPS;
use crate::slips::{DAMAGED, SLIPS};
use returns::Return;
use std::alloc::{AllocError, Global};
use tally::{Tally, refused_with};

// What the table says of these bytes: a return, or nothing where they are no slip.
fn expected(bytes: &[u8]) -> Option<Return> {
    let (_, said) = SLIPS.iter().find(|(slip, _)| slip.as_bytes() == bytes)?;
    said.returned()
}

/// What came of slips that are slips again after the damage, and of those that are not.
#[derive(Clone, Copy, Default)]
pub(crate) struct Damage {
    pub(crate) sound: Tally,
    pub(crate) refused: Tally,
}

impl Damage {
    fn check(&mut self, bytes: &[u8]) {
        let expected = expected(bytes);
        if expected.is_some() {
            self.sound.check(slip::read(bytes).ok() == expected);
        } else {
            self.refused.check(is_refused(bytes));
        }
    }

    // Each byte between the front and the back.
    fn check_bytes(&mut self, alloc: Global, front: &[u8], back: &[u8]) -> Result<(), AllocError> {
        for byte in 0..=255 {
            self.check([front, &[byte], back].concat(alloc)?.as_slice());
        }
        Ok(())
    }

    // Each byte put in at each place; each byte in the place of each, and each left out; the slip cut short before each and
    // behind it.
    fn check_slip(&mut self, alloc: Global, slip: &[u8]) -> Result<(), AllocError> {
        // over places and not bytes, since there is a place behind the last byte
        for place in 0..=slip.len() {
            let (front, back) = slip.split_at(place);
            self.check_bytes(alloc, front, back)?;
            if let [_, behind @ ..] = back {
                self.check_bytes(alloc, front, behind)?;
                self.check([front, behind].concat(alloc)?.as_slice());
                self.check(front);
                self.check(behind);
            }
        }
        Ok(())
    }
}

pub(crate) fn damaged(alloc: Global) -> Result<Damage, AllocError> {
    let mut damage = Damage::default();
    for slip in DAMAGED.iter() {
        damage.check_slip(alloc, slip.as_bytes())?;
    }
    Ok(damage)
}

fn is_refused(bytes: &[u8]) -> bool {
    refused_with(slip::read(bytes)) == Some(20)
}

pub(crate) fn not_slips() -> Tally {
    let mut tally = Tally::default();
    for text in NOT_SLIPS.iter() {
        tally.check(is_refused(text.as_bytes()));
    }
    tally
}

/// Each slip of the table, with a hundred thousand times each of some bytes behind it.
pub(crate) fn long(alloc: Global) -> Result<Tally, AllocError> {
    let mut tally = Tally::default();
    for slip in DAMAGED.iter() {
        for byte in b" 0X+".iter() {
            let mut text = slip.as_bytes().to_vec(alloc)?;
            let tail = vec![in alloc; *byte; 100_000]?;
            text.extend_from_slice(tail.as_slice())?;
            tally.check(is_refused(text.as_slice()));
        }
    }
    Ok(tally)
}
