// The values of the two kinds of measure.
ghost use Rattle.std.specs.Prelude.{◌≤◌};
ghost use Rattle.measure.specs.Stops.{energy_stop};

/// Charges added up, to a stop at 1,000,000,000,000.
#[derive(Clone, Copy, PartialEq, Eq, PartialOrd, Ord, Debug)]
pub struct Energy {
    pub(crate) value: u64,
    ghost stops: { value ≤ energy_stop },
}

/// The largest of some charges.
#[derive(Clone, Copy, PartialEq, Eq, PartialOrd, Ord, Debug)]
pub struct Peak {
    pub(crate) value: u32,
}
