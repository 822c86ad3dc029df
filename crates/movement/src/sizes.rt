// What is asked before a movement is made.
ghost use Rattle.std.specs.Prelude.{◌≡◌};
ghost use Rattle.std.specs.Result.{result_err};
ghost use Rattle.refusal.specs.Questions.{first_no};
ghost use Rattle.movement.specs.Sizes.{sizes};

use refusal::Refusal;

/// Refuses a movement that is not made for its tables or, if it is, has no such number of rounds.
pub(crate) fn check(has_tables: bool, has_rounds: bool) -> Result<(), Refusal>
    ensures { result_err result ≡ first_no (sizes has_tables has_rounds) }
{
    if !has_tables {
        return Err(Refusal::TablesOutOfRange);
    }
    if !has_rounds {
        return Err(Refusal::RoundsOutOfRange);
    }
    Ok(())
}
