// The one refusal of this layer.
ghost use Rattle.std.specs.Prelude.{◌≡◌};
ghost use Rattle.tariff.specs.Checks.{refusal_number};

/// Why a tariff is not made. Each case has the number by which it is known.
#[derive(Clone, Copy, PartialEq, Eq, Debug)]
pub enum TariffRefusal {
    /// One of the numbers is above its bound.
    PastBound = 14,
}

impl TariffRefusal {
    /// The number by which the refusal is known.
    pub fn number(self) -> u8
        ensures { result ≡ refusal_number self }
    {
        // One line in each enum: a trait for it would be longer.
        self as u8
    }
}
