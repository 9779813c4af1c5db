//! Tariffs: what each slot costs at each speed.
#![tactic(auto)]

ghost use Rattle.std.specs.Prelude.{◌≡◌, ℕ, ◌≤◌};
ghost use Rattle.tariff.specs.Charges.{last_slot, top_speed, largest_charge, as_read};

mod bounds;
mod checked;
mod cubic_drive;
mod energy_table;
mod price_list;
mod refusal;

pub use bounds::{bounds_are_tested_exactly, checks_keep_their_bounds};
pub use checked::{Bounded, Coefficients, Energies, Prices};
pub use cubic_drive::CubicDrive;
pub use energy_table::EnergyTable;
pub use price_list::PriceList;
pub use refusal::TariffRefusal;

/// What a slot costs at a speed, for slots up to 95 and speeds up to 15.
pub trait Tariff {
    // the charge by slot and speed
    ghost charge: { Self → ℕ → ℕ → ℕ };

    // no charge of a slot and a speed passes the largest
    ghost bounded: { (t : Self) (k s : ℕ) → k ≤ last_slot → s ≤ top_speed → charge t k s ≤ largest_charge };

    /// The charge of a slot at a speed, each brought into its range first: the slot to 95, the speed to 15.
    fn charge_for(&self, slot: u32, speed: u32) -> u32
        ensures { result ≡ as_read (charge self.now) slot speed };
}
