// What a call was refused with.
ghost use Rattle.std.specs.Prelude.{◌≡◌};
ghost use Rattle.std.specs.Option.{option_map};
ghost use Rattle.std.specs.Result.{result_err};
ghost use Rattle.refusal.specs.Numbers.{number_of};

use refusal::Refusal;

/// The number of the refusal, if the call was refused. What is expected of a call is a number of the rules, and no name of the code.
pub fn refused_with<T: Drop>(answer: Result<T, Refusal>) -> Option<u8>
    ensures { result ≡ option_map number_of (result_err answer) }
{
    answer.err().map(Refusal::number)
}
