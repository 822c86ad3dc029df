ghost use Rattle.std.specs.Prelude.{◌≡◌, ◌≤◌, MatchResult};
ghost use Rattle.refusal.specs.declared.Refusal.TheVariants.{ReturnOutOfRange};

use refusal::Refusal;

/// The form in which a board was played: 0 to 3. Only tables of one group played the same cards, where a board was fouled.
#[derive(Clone, Copy, PartialEq, Eq, Debug)]
pub struct Group {
    pub number: u8,
    ghost most: { number ≤ 3 },
}

/// Refused unless the number is at most 3.
impl TryFrom<u8> for Group {
    type Error = Refusal;

    ghost try_from_gives = { λ number result. MatchResult result
        (λ group. group.number ≡ number)
        (λ e. (e ≡ ReturnOutOfRange) × (number ≤ 3 → ⊥)) };

    fn try_from(number: u8) -> Result<Group, Refusal> {
        if number > 3 {
            return Err(Refusal::ReturnOutOfRange);
        }
        Ok(Group { number })
    }
}
