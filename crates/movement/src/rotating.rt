// The movements in which North-South sit still, East-West go up and the sets go down.
ghost use Rattle.std.specs.Prelude.{◌≡◌, IfOk, IsTrue, is_none, ⊤};
ghost use Rattle.std.specs.Result.{result_err};
ghost use Rattle.refusal.specs.Questions.{first_no};
ghost use Rattle.std.proofs.Common.{sym, subst};
ghost use Rattle.plan.specs.Laws.{Laws};
ghost use Rattle.plan.proofs.Rotating.{rotating_lawful};

use crate::circle::Circle;
use crate::walk::Walk;
use plan::{Field, Movement, Sizes, is_within};
use refusal::Refusal;
use std::alloc::AllocError;
use std::marker::PhantomData;

/// As many pairs North-South as there are tables, and as many East-West, who walk.
#[derive_where(Copy, PartialEq, Eq, Debug)]
pub struct Rotating<W: Walk> {
    tables: u8,
    rounds: u8,
    walk: PhantomData<W>,
    ghost asked: { IsTrue (is_none (first_no (W.questions tables rounds))) },
}

// By hand: where a struct is generic, no `Clone` can be derived over a ghost field.
impl<W: Walk> Clone for Rotating<W> {
    ghost is_clone = { λ m n. n ≡ m };

    ghost is_infallible = { λ _. ⊤ };

    fn clone(&self) -> Result<Rotating<W>, AllocError> {
        Ok(*self)
    }
}

impl<W: Walk> Rotating<W> {
    ghost use Rattle.movement.specs.Alone.{IsAlone};

    pub fn new(tables: u8, rounds: u8) -> Result<Rotating<W>, Refusal>
        ensures asked { result_err result ≡ first_no (W.questions tables rounds) }
        ensures made { IfOk result (λ m. (m.tables ≡ tables) × (m.rounds ≡ rounds)) }
        ensures alone { IfOk result IsAlone }
    {
        W::check(tables, rounds)?;
        Ok(Rotating {
            tables,
            rounds,
            walk: PhantomData,
        })
    }
}

impl<W: Walk> Movement for Rotating<W> {
    ghost plan = { λ m. W.plan m.tables m.rounds };

    ghost lawful = { λ m. subst Laws (sym (W.rotates m.tables m.rounds)) (rotating_lawful m.tables m.rounds (W.gone m.tables) (W.turns m.tables m.rounds m.asked)) };

    fn sizes(&self) -> Sizes {
        Sizes {
            tables: self.tables,
            rounds: self.rounds,
            sets: self.tables,
            pairs: 2 * self.tables,
        }
    }

    fn field(&self, pair: u8) -> Option<Field> {
        if is_within(self.tables, pair) {
            return Some(Field::One);
        }
        is_within(2 * self.tables, pair).then_some(Field::Two)
    }

    fn seat(&self, round: u8, table: u8) -> Option<(u8, u8, u8)> {
        if !is_within(self.rounds, round) || !is_within(self.tables, table) {
            return None;
        }
        let circle = Circle { size: self.tables };
        let guests = circle.back(table, W::gone(self.tables, round));
        let set = circle.ahead(table, round - 1);
        Some((table, self.tables + guests, set))
    }
}
