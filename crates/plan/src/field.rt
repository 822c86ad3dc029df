// The fields in which pairs are ranked.
ghost use Rattle.std.specs.Prelude.{◌≡◌};
ghost use Rattle.plan.specs.Field.{number_of_field};

/// Pairs of one field are ranked against each other.
#[derive(Clone, Copy, PartialEq, Eq, Debug)]
pub enum Field {
    One = 1,
    Two = 2,
}

impl Field {
    pub fn number(self) -> u8
        ensures { result ≡ number_of_field self }
    {
        self as u8
    }
}
