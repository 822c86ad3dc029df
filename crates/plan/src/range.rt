// Numbers that are counted from 1, and what is outside them.
ghost use Rattle.std.specs.Prelude.{◌≡◌};
ghost use Rattle.plan.specs.Plan.{within};
ghost use Rattle.plan.specs.Field.{field_number};
ghost use Rattle.plan.specs.Movements.{one_field};

use crate::field::Field;

/// Whether `k` is one of the numbers 1 to `n`.
pub fn is_within(n: u8, k: u8) -> bool
    ensures { result ≡ within n k }
{
    (1..=n).contains(&k)
}

/// The field of a pair where all pairs are in one, or nothing for what is no pair.
pub fn one_field(pairs: u8, pair: u8) -> Option<Field>
    ensures { field_number result ≡ one_field pairs pair }
{
    is_within(pairs, pair).then_some(Field::One)
}
