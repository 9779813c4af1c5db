//! Measures: what a list of charges comes to, and when one is not above another.
#![tactic(auto)]

ghost use Rattle.std.specs.Prelude.{◌≡◌, ℕ, min};
ghost use Rattle.tariff.specs.Charges.{largest_charge};
ghost use Rattle.measure.specs.Kinds.{Kind, Laws};
ghost use Rattle.measure.specs.Orders.{OrdersCharges};

mod amounts;
mod energy;
mod peak;

pub use amounts::{Energy, Peak};
pub use energy::energy_is_the_sum;
pub use peak::peak_is_the_largest;

/// A value that measures charges.
pub trait Measure: Copy {
    /// The number of this kind of measure, told by the type alone.
    const MARK: u8;

    // the same number, for clauses
    ghost MARK: { ℕ };

    // nought, the measure of a charge, joining and "not above"
    ghost kind: { Kind Self };

    ghost laws: { Laws kind };

    /// The measure of no charges.
    fn nought() -> Self
        ensures { result ≡ kind.nought };

    /// The measure of a charge. A charge above 1,000,000,000 is read as that.
    fn of(charge: u32) -> Self
        ensures { result ≡ kind.of (min charge largest_charge) };

    /// What two measures come to, the first's charges first.
    fn join(self, other: Self) -> Self
        ensures { result ≡ kind.join self other };

    /// Whether this is no more than the other.
    fn not_above(self, other: Self) -> bool
        ensures { result ≡ kind.not_above self other };

    /// The mark, as a function.
    final fn mark_told() -> u8
        ensures { result ≡ MARK }
    {
        Self::MARK
    }
}

/// The law that lets a call that plans be told as data: a measure's values put an order on lists of charges.
pub fn measures_order_charges<M: Measure>()
    ensures { OrdersCharges M.Measure.kind }
{}
