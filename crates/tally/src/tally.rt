// How many figures agreed.
ghost use Rattle.std.specs.Prelude.{◌≡◌, ◌+◌, min, Some, if◌then◌else◌};
ghost use Rattle.tally.specs.Counts.{counts_text};

use std::fmt;

/// How many figures were as they should be, and how many were not.
#[derive(Clone, Copy, PartialEq, Eq, Default, Debug)]
pub struct Tally {
    pub agreed: u32,
    pub differed: u32,
}

impl Tally {
    /// Counts one figure; each count stays at the largest number that it can hold.
    pub fn check(&mut self, agrees: bool)
        ensures agreed { self.new.agreed ≡ if agrees then min (self.old.agreed + 1) 4294967295 else self.old.agreed }
        ensures differed { self.new.differed ≡ if agrees then self.old.differed else min (self.old.differed + 1) 4294967295 }
    {
        if agrees {
            self.agreed = self.agreed.saturating_add(1);
        } else {
            self.differed = self.differed.saturating_add(1);
        }
    }
}

/// As `175 agree, 0 differ`.
impl fmt::Display for Tally {
    ghost output = { λ t. Some (counts_text t.agreed t.differed) };

    fn fmt<W: fmt::Write>(&self, f: &mut fmt::Formatter<W>) -> fmt::Result {
        let Tally { agreed, differed } = *self;
        write!(f, "{agreed} agree, {differed} differ")
    }
}
