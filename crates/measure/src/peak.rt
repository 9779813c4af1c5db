// Peak, mark 2.
ghost use Rattle.std.specs.Prelude.{◌≡◌};
ghost use Rattle.measure.specs.Peaks.{peak, peak_laws, PeakIsTheLargest};

use super::{Measure, Peak};

impl Peak {
    /// The largest charge.
    pub fn value(self) -> u32
        ensures { result ≡ self.value }
    {
        self.value
    }
}

impl Measure for Peak {
    const MARK: u8 = 2;

    ghost MARK = { 2 };

    ghost kind = { peak };

    ghost laws = { peak_laws };

    fn nought() -> Peak {
        Peak { value: 0 }
    }

    fn of(charge: u32) -> Peak {
        Peak {
            value: charge.min(1_000_000_000),
        }
    }

    fn join(self, other: Peak) -> Peak {
        Peak {
            value: self.value.max(other.value),
        }
    }

    fn not_above(self, other: Peak) -> bool {
        self <= other
    }
}

/// The law of peak: it is the largest of the charges.
pub fn peak_is_the_largest()
    ensures { PeakIsTheLargest }
{}
