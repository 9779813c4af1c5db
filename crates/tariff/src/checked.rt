// What the tariffs are made from, each kept within its bounds by its type.
ghost use Rattle.std.specs.Prelude.{◌≡◌};
ghost use Rattle.tariff.specs.Bounds.{EachWithin, CoefficientsWithin};

/// `N` numbers, none of which passes `BOUND`.
#[derive(Clone, Copy)]
pub struct Bounded<const N: usize, const BOUND: u32> {
    pub(crate) values: [u32; N],
    ghost bounded: { EachWithin BOUND values },
}

/// Watt-hours of one slot, for each speed 0 to 15, none above 1,000,000.
pub type Energies = Bounded<16, 1_000_000>;

/// A price for each slot 0 to 95, none above 1,000.
pub type Prices = Bounded<96, 1_000>;

/// The three coefficients of a cubic drive.
#[derive(Clone, Copy)]
pub struct Coefficients {
    pub(crate) base: u32,
    pub(crate) linear: u32,
    pub(crate) cube: u32,
    ghost bounded: { CoefficientsWithin base linear cube },
}
