// The slots not yet run.
ghost use Rattle.std.specs.Prelude.{◌≡◌, ◌-◌, ◌≤◌, ◌&&◌, nat_le, nat_lt};

/// The slots of a stay from the clock on.
#[derive(Clone, Copy)]
pub(crate) struct SlotsAhead {
    pub(crate) clock: u8,
    pub(crate) slots: u8,
    ghost run: { clock ≤ slots },
    ghost few: { slots ≤ 96 },
}

impl SlotsAhead {
    /// How many they are.
    pub(crate) fn left(&self) -> u8
        ensures { result ≡ self.now.slots - self.now.clock }
    {
        self.slots - self.clock
    }

    /// Whether a slot is one of them.
    pub(crate) fn contains(&self, slot: u32) -> bool
        ensures { result ≡ (nat_le self.now.clock slot && nat_lt slot self.now.slots) }
    {
        (self.clock as u32..self.slots as u32).contains(&slot)
    }
}
