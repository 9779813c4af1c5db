// The energy table: the charge is the energy of the speed, in every slot.
ghost use Rattle.std.specs.Prelude.{◌≡◌};
ghost use Rattle.tariff.specs.Bounds.{table_charge};
ghost use Rattle.tariff.specs.Within.{table_within};

use super::{Energies, Tariff};

/// A tariff that charges each speed its energy.
#[derive(Clone, Copy)]
pub struct EnergyTable {
    energies: Energies,
}

impl EnergyTable {
    /// The tariff of these energies.
    pub fn new(energies: Energies) -> Self
        ensures { result.energies ≡ energies }
    {
        EnergyTable { energies }
    }
}

impl Tariff for EnergyTable {
    ghost charge = { λ t. table_charge t.energies.values };

    ghost bounded = { λ t k s h i. table_within t.energies.values s t.energies.bounded };

    fn charge_for(&self, _slot: u32, speed: u32) -> u32 {
        self.energies.values[speed.min(15) as usize]
    }
}
