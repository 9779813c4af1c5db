// The price list: the amount of the tariff below times the price of the slot.
ghost use Rattle.std.specs.Prelude.{◌≡◌};
ghost use Rattle.tariff.specs.Bounds.{price_list_charge};
ghost use Rattle.std.specs.Prelude.{slice_index};
ghost use Rattle.tariff.specs.Within.{priced_within};

use super::{Prices, Tariff};

/// A tariff over another: each slot at its price.
#[derive(Drop)]
pub struct PriceList<L> {
    below: L,
    prices: Prices,
}

impl<L> PriceList<L> {
    /// The list over a tariff, which it takes in.
    pub fn new(below: L, prices: Prices) -> Self
        ensures { (result.below ≡ below) × (result.prices ≡ prices) }
    {
        PriceList { below, prices }
    }
}

impl<L: Tariff> Tariff for PriceList<L> {
    ghost charge = { λ t. price_list_charge (L.Tariff.charge t.below) t.prices.values };

    ghost bounded = { λ t k s h i. priced_within (L.Tariff.charge t.below k s) (slice_index t.prices.values k) };

    fn charge_for(&self, slot: u32, speed: u32) -> u32 {
        let k = slot.min(95);
        let amount = self.below.charge_for(k, speed) as u64 * self.prices.values[k as usize] as u64;
        amount.min(1_000_000_000) as u32
    }
}
