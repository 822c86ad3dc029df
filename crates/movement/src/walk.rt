// How the East-West pairs walk while North-South sit still.
ghost use Rattle.std.specs.Prelude.{◌≡◌, ℕ, Bool, List, IsTrue, is_none};
ghost use Rattle.std.specs.Result.{result_err};
ghost use Rattle.refusal.specs.declared.Refusal.{Refusal};
ghost use Rattle.refusal.specs.Questions.{first_no};
ghost use Rattle.plan.specs.Plan.{Plan};
ghost use Rattle.plan.specs.Movements.{rotating};
ghost use Rattle.plan.specs.Turns.{Turns};

use refusal::Refusal;

/// A walk of the East-West pairs: for which sizes it is made, and how far they have gone by each round. At these sizes nobody
/// meets a pair or a set again.
pub trait Walk {
    // What is asked of a number of tables and rounds.
    ghost questions: { ℕ → ℕ → List (Bool × Refusal) };

    // The plan at a number of tables and rounds.
    ghost plan: { ℕ → ℕ → Plan };

    // With so many tables, by how many the pairs have gone up in a round.
    ghost gone: { ℕ → ℕ → ℕ };

    /// Refuses tables and rounds for which the walk is not made: each walk has a rule of its own.
    fn check(tables: u8, rounds: u8) -> Result<(), Refusal>
        ensures { result_err result ≡ first_no (questions tables rounds) };

    /// By how many tables the pairs have gone up in a round.
    fn gone(tables: u8, round: u8) -> u8
        ensures { result ≡ gone tables round };

    // The plan is that of pairs who go up as this walk does, while North-South sit still and the sets go down.
    ghost rotates: { (tables rounds : ℕ) → plan tables rounds ≡ rotating tables rounds (gone tables) };

    // They go so far that nobody meets a pair or a set again.
    ghost turns: { (tables rounds : ℕ) → IsTrue (is_none (first_no (questions tables rounds))) → Turns tables rounds (gone tables) };
}
