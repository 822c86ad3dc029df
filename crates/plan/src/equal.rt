// When two movements are equal: when their plans are.
ghost use Rattle.std.specs.Prelude.{◌≡◌, ◌↔◌, IsTrue};
ghost use Rattle.plan.specs.Agreement.{SameSizes, SameFields, SameRound, SameSeats};

use crate::movement::Movement;

/// Whether two movements, of whatever types, are equal: they are when their plans are.
#[tactic(auto, using(crate::proofs::Agreement::plans_agree))]
pub fn are_equal<A: Movement, B: Movement>(a: &A, b: &B) -> bool
    ensures { IsTrue result ↔ (A.Movement.plan a.now ≡ B.Movement.plan b.now) }
{
    same_sizes(a, b) && same_fields(a, b) && same_seats(a, b)
}

fn same_sizes<A: Movement, B: Movement>(a: &A, b: &B) -> bool
    ensures { IsTrue result ↔ SameSizes (A.Movement.plan a.now) (B.Movement.plan b.now) }
{
    a.sizes() == b.sizes()
}

fn same_fields<A: Movement, B: Movement>(a: &A, b: &B) -> bool
    ensures { IsTrue result ↔ SameFields (A.Movement.plan a.now) (B.Movement.plan b.now) }
{
    (1..=a.pairs()).all(|pair| a.field(pair) == b.field(pair))
}

fn same_seats<A: Movement, B: Movement>(a: &A, b: &B) -> bool
    ensures { IsTrue result ↔ SameSeats (A.Movement.plan a.now) (B.Movement.plan b.now) }
{
    (1..=a.rounds()).all(|round| same_round(a, b, round))
}

fn same_round<A: Movement, B: Movement>(a: &A, b: &B, round: u8) -> bool
    ensures { IsTrue result ↔ SameRound (A.Movement.plan a.now) (B.Movement.plan b.now) round }
{
    (1..=a.tables()).all(|table| a.seat(round, table) == b.seat(round, table))
}
