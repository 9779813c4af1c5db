// Energy, mark 1.
ghost use Rattle.std.specs.Prelude.{◌≡◌};
ghost use Rattle.measure.specs.Energies.{energy, energy_laws, stopped, EnergyIsTheSum};

use super::{Energy, Measure};

impl Energy {
    /// The energy in watt-hours, or in price times watt-hours.
    pub fn value(self) -> u64
        ensures { result ≡ self.value }
    {
        self.value
    }
}

// The energy of a sum, which stops where it must.
fn stopped_at(sum: u64) -> Energy
    ensures { result ≡ stopped sum }
{
    Energy {
        value: sum.min(1_000_000_000_000),
    }
}

impl Measure for Energy {
    const MARK: u8 = 1;

    ghost MARK = { 1 };

    ghost kind = { energy };

    ghost laws = { energy_laws };

    fn nought() -> Energy {
        stopped_at(0)
    }

    fn of(charge: u32) -> Energy {
        stopped_at(charge.min(1_000_000_000) as u64)
    }

    fn join(self, other: Energy) -> Energy {
        stopped_at(self.value + other.value)
    }

    fn not_above(self, other: Energy) -> bool {
        self <= other
    }
}

/// The law of energy: of up to 96 charges it is their sum.
pub fn energy_is_the_sum()
    ensures { EnergyIsTheSum }
{}
