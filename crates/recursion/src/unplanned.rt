// Why there is no plan.

/// Why planning answers no plan, the first that holds.
#[derive(Clone, Copy, PartialEq, Eq, Debug)]
pub enum Unplanned {
    /// The slots pass the 96th, or the places for the speeds are not as many as the slots.
    Slots,
    /// The speeds are no lawful list: 2 to 16 of them, from 0, rising strictly, to 15 or less.
    Speeds,
    /// Fewer bytes than slots × (most arrived + 1), or fewer measures than 2 × (most arrived + 1).
    Memory,
    /// No sequence of the speeds is in time.
    Late,
}
