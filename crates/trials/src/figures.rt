// The figures that are proved of the definitions.
ghost use Rattle.std.specs.Prelude.{◌≡◌, length};
ghost use Rattle.std.specs.List.{AllByRecursion};
ghost use Rattle.trials.specs.Figures.{Holds, worked};

/// How many figures the list has. Each of them is what the definitions give.
pub(crate) fn worked_figures() -> u8
    ensures hold { AllByRecursion Holds worked }
    ensures count { result ≡ length worked }
{
    11
}
