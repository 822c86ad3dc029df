// Writes a slip.
ghost use Rattle.std.specs.Prelude.{◌≡◌, ◌<◌, ◌++◌, length, take, drop, IfOk, IfErr, Ok, Result};
ghost use Rattle.refusal.specs.declared.Refusal.{Refusal};
ghost use Rattle.refusal.specs.declared.Refusal.TheVariants.{OutputTooShort};
ghost use Rattle.returns.specs.declared.returned.Return.{Return};
ghost use Rattle.returns.specs.declared.returned.Return.TheVariants.{Scored, Passed, Averages};
ghost use Rattle.slip.specs.Reading.{Reads};
ghost use Rattle.slip.specs.Slips.{slip_of};

use crate::group::text_of_group;
use crate::numbers::{text_of_level, text_of_tricks};
use crate::symbol::Symbol;
use arrayvec::ArrayString;
use contract::Contract;
use refusal::Refusal;
use returns::{Average, Group, Return};

/// A slip as it is put together. The longest, as `7NXX N 13 G3`, has twelve bytes. The parts are pushed, since nothing says of a
/// `write!` that it succeeds where there is room.
type Slip = ArrayString<12>;

#[tactic(auto, using(crate::proofs::Lengths::lengths))]
fn scored_slip(contract: Contract, group: Group) -> Slip
    ensures { result.bytes ≡ slip_of (Scored contract group) }
{
    let mut slip = Slip::new();
    slip.push_str(text_of_level(contract.level));
    slip.push_str(contract.denomination.text());
    slip.push_str(contract.doubling.text());
    slip.push_str(contract.declarer.text());
    slip.push_str(" ");
    slip.push_str(text_of_tricks(contract.tricks));
    slip.push_str(text_of_group(group));
    slip
}

#[tactic(auto, using(crate::proofs::Lengths::lengths))]
fn passed_slip(group: Group) -> Slip
    ensures { result.bytes ≡ slip_of (Passed group) }
{
    let mut slip = Slip::new();
    slip.push_str("PASS");
    slip.push_str(text_of_group(group));
    slip
}

fn averages_slip(north_south: Average, east_west: Average) -> Slip
    ensures { result.bytes ≡ slip_of (Averages north_south east_west) }
{
    let mut slip = Slip::new();
    slip.push_str("AVE ");
    slip.push_str(north_south.text());
    slip.push_str(east_west.text());
    slip
}

fn slip_of_return(returned: Return) -> Slip
    ensures { result.bytes ≡ slip_of returned }
{
    match returned {
        Return::Scored { contract, group } => scored_slip(contract, group),
        Return::Passed { group } => passed_slip(group),
        Return::Averages {
            north_south,
            east_west,
        } => averages_slip(north_south, east_west),
    }
}

/// Writes the slip of a return to the front of the output, and gives its length. Refused where the output is shorter. Reading what
/// was written gives the return back.
pub fn write(returned: Return, out: &mut [u8]) -> Result<usize, Refusal>
    ensures made { IfOk result (λ n. (n ≡ length (slip_of returned)) × (out.new ≡ slip_of returned ++ drop n out.old)) }
    ensures refused { IfErr result (λ e. (e ≡ OutputTooShort) × (length out.old < length (slip_of returned)) × (out.new ≡ out.old)) }
    ensures back { IfOk result (λ n. (answer : Result Return Refusal) → Reads (take n out.new) answer → answer ≡ Ok returned) }
{
    let slip = slip_of_return(returned);
    let n = slip.len();
    if out.len() < n {
        return Err(Refusal::OutputTooShort);
    }
    out[..n].copy_from_slice(slip.as_bytes());
    Ok(n)
}
