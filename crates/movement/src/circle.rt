// Numbers around a circle of tables. Each function says that its answer is at most the size, which its callers need for their sums.
ghost use Rattle.std.specs.Prelude.{◌≡◌, ◌+◌, ◌-◌, ◌%◌, ◌<◌, ◌≤◌, pos, ◌-ℤ◌};
ghost use Rattle.plan.specs.Laws.{In};
ghost use Rattle.plan.specs.Movements.{wrap};

/// The numbers from 1 to `size`, in a circle.
#[derive(Clone, Copy)]
pub(crate) struct Circle {
    pub(crate) size: u8,
    ghost some: { 1 ≤ size },
    ghost small: { size ≤ 16 },
}

impl Circle {
    /// The number `steps` after `start`, by less than a whole turn. A helper: the start is on the circle.
    pub(crate) fn ahead(self, start: u8, steps: u8) -> u8
        requires on { In self.size start }
        requires less { steps < self.size }
        ensures value { result ≡ wrap self.size (pos (start + steps)) }
        ensures most { result ≤ self.size }
    {
        self.wrap(start + steps)
    }

    /// The number `steps` before `start`, by less than a whole turn. A helper: the start is on the circle.
    pub(crate) fn back(self, start: u8, steps: u8) -> u8
        requires on { In self.size start }
        requires less { steps < self.size }
        ensures value { result ≡ wrap self.size (pos start -ℤ pos steps) }
        ensures most { result ≤ self.size }
    {
        self.wrap(start + (self.size - steps))
    }

    // The number on the circle that differs from `v`, which is above 0, by a multiple of the size.
    fn wrap(self, v: u8) -> u8
        requires { 1 ≤ v }
        ensures value { result ≡ 1 + (v - 1) % self.size }
        ensures most { result ≤ self.size }
    {
        (v - 1) % self.size + 1
    }
}
