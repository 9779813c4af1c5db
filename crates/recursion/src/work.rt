// The work that planning is asked about.

/// Running totals at one slot: all work that is due by its end, and all work that has arrived by it. Both count what was not
/// yet done when planning starts.
#[derive(Clone, Copy)]
pub struct SlotWork {
    pub due: u16,
    pub arrived: u16,
}
