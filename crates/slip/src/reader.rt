// Reads a slip.
ghost use Rattle.std.specs.Prelude.{◌≡◌};
ghost use Rattle.returns.specs.declared.returned.Return.{Return};
ghost use Rattle.slip.specs.Parts.{Whole, IsScored, IsPassed, IsAverages};
ghost use Rattle.slip.specs.Reading.{Reads};
ghost use Rattle.slip.specs.Slips.{slip_of};

use crate::group::read_group;
use crate::numbers::{take_level, take_tricks};
use crate::symbol::take_symbol;
use contract::{Contract, Declarer, Denomination, Doubling};
use refusal::Refusal;
use returns::{Average, Return};

/// The return of which the bytes are the slip, or a refusal where they are no slip. Two returns never share a slip.
pub fn read(bytes: &[u8]) -> Result<Return, Refusal>
    ensures reads { Reads bytes.now result }
    ensures alone { (t u : Return) → slip_of t ≡ slip_of u → t ≡ u }
{
    read_scored(bytes)
        .or_else(|| read_passed(bytes))
        .or_else(|| read_averages(bytes))
        .ok_or(Refusal::NotASlip)
}

fn read_scored(input: &[u8]) -> Option<Return>
    ensures { Whole IsScored slip_of input.now result }
{
    let (level, rest) = take_level(input)?;
    let (denomination, rest) = take_symbol(&Denomination::ALL, rest)?;
    let (doubling, rest) = take_symbol(&Doubling::ALL, rest)?;
    let (declarer, rest) = take_symbol(&Declarer::ALL, rest)?;
    let rest = rest.strip_prefix(b" ")?;
    let (tricks, rest) = take_tricks(rest)?;
    let group = read_group(rest)?;
    let contract = Contract {
        level,
        denomination,
        doubling,
        declarer,
        tricks,
    };
    Some(Return::Scored { contract, group })
}

fn read_passed(input: &[u8]) -> Option<Return>
    ensures { Whole IsPassed slip_of input.now result }
{
    let group = read_group(input.strip_prefix(b"PASS")?)?;
    Some(Return::Passed { group })
}

fn read_averages(input: &[u8]) -> Option<Return>
    ensures { Whole IsAverages slip_of input.now result }
{
    let rest = input.strip_prefix(b"AVE ")?;
    let (north_south, rest) = take_symbol(&Average::ALL, rest)?;
    let (east_west, rest) = take_symbol(&Average::ALL, rest)?;
    if !rest.is_empty() {
        return None;
    }
    Some(Return::Averages {
        north_south,
        east_west,
    })
}
