// The group, read and written.
ghost use Rattle.std.specs.Prelude.{◌≡◌, ℕ, ◌≤◌, ◌++◌, codes, decimal};
ghost use Rattle.slip.specs.Parts.{Whole, Always};
ghost use Rattle.slip.specs.Slips.{group_text};

use returns::Group;

// The number of a group that is written, to the end of the input.
#[tactic(auto, using(crate::proofs::GroupTexts::written))]
fn read_written(input: &[u8]) -> Option<u8>
    ensures { Whole (λ n. (1 ≤ n) × (n ≤ 3)) (λ n. codes " G" ++ decimal n) input.now result }
{
    match input {
        [b' ', b'G', digit @ b'1'..=b'3'] => Some(digit - b'0'),
        _ => None,
    }
}

/// The group, to the end of the input.
pub(crate) fn read_group(input: &[u8]) -> Option<Group>
    ensures { Whole Always group_text input.now result }
{
    if input.is_empty() {
        return Some(Group { number: 0 });
    }
    let number = read_written(input)?;
    Some(Group { number })
}

/// The text of a group. A group is a number by the rules and no kind, so its text is picked by the number.
#[tactic(auto, using(crate::proofs::GroupTexts::written_group))]
pub(crate) fn text_of_group(group: Group) -> &'static str
    ensures { result.now ≡ group_text group }
{
    match group.number {
        0 => "",
        1 => " G1",
        2 => " G2",
        _ => " G3",
    }
}
