// The check of a list of numbers against their bound.
ghost use Rattle.std.specs.Prelude.{◌≡◌, ℕ, List};
ghost use Rattle.tariff.specs.Bounds.{all_within, energy_bound, price_bound, EachWithin, CoefficientsWithin};
ghost use Rattle.tariff.specs.Checks.{TestIsExact, coefficients_within, told, unless_past, values_of};

use super::{Bounded, Energies, Prices, TariffRefusal};

// Whether no number passes the bound.
fn within(numbers: &[u32], bound: u32) -> bool
    ensures { result ≡ all_within bound numbers.now }
{
    numbers.iter().all(|x| *x <= bound)
}

impl<const N: usize, const BOUND: u32> Bounded<N, BOUND> {
    /// The numbers, refused if one passes the bound.
    // Public by this name: a `TryFrom` beside it would be a second way.
    pub fn checked(values: [u32; N]) -> Result<Self, TariffRefusal>
        ensures { told values_of result ≡ unless_past (all_within BOUND values.entry) values.entry }
    {
        if within(&values, BOUND) {
            Ok(Bounded { values })
        } else {
            Err(TariffRefusal::PastBound)
        }
    }
}

/// The laws behind the checks: a test passes exactly if each number keeps its bound.
pub fn bounds_are_tested_exactly()
    ensures lists { (bound : ℕ) (xs : List ℕ) → TestIsExact (EachWithin bound xs) (all_within bound xs) }
    ensures coefficients { (base linear cube : ℕ) → TestIsExact (CoefficientsWithin base linear cube) (coefficients_within base linear cube) }
{}

/// The law of the two checks: energies and prices are refused exactly past their own bounds.
pub fn checks_keep_their_bounds(
    energies: [u32; 16],
    prices: [u32; 96],
) -> (
    Result<Energies, TariffRefusal>,
    Result<Prices, TariffRefusal>,
)
    ensures energies { told values_of result.0 ≡ unless_past (all_within energy_bound energies) energies }
    ensures prices { told values_of result.1 ≡ unless_past (all_within price_bound prices) prices }
{
    (Energies::checked(energies), Prices::checked(prices))
}
