// The plan record of a stay.
ghost use Rattle.std.specs.Prelude.{◌≡◌, replicate};

use crate::limits::MOST_SLOTS;

/// A standing plan: its mark, and a speed for each slot.
// A fixed array: the library takes no memory and stands on `std` alone, so neither `Vec` nor `arrayvec`.
#[derive(Clone, Copy)]
pub(crate) struct PlanRecord {
    pub(crate) mark: u8,
    pub(crate) speeds: [u8; MOST_SLOTS],
}

impl PlanRecord {
    /// With a mark, and speed 0 in every slot until planning fills them in.
    pub(crate) fn blank(mark: u8) -> PlanRecord
        ensures { result ≡ record { mark = mark; speeds = replicate 96 0 } }
    {
        PlanRecord {
            mark,
            speeds: [0; MOST_SLOTS],
        }
    }
}
