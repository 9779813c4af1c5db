// The refusals of a stay's calls.
ghost use Rattle.std.specs.Prelude.{◌≡◌};
ghost use Rattle.ledger.specs.Refusals.{refusal_number};

/// Why a call on a stay is refused: a case to a rule, and the number by which it is known.
#[derive(Clone, Copy, PartialEq, Eq, Debug)]
pub enum Refusal {
    /// Opening: the slots are outside 1 to 96.
    SlotCount = 1,
    /// Opening: the list of speeds is not lawful.
    SpeedList = 2,
    /// Booking: the number is outside 1 to 999,999.
    JobNumber = 3,
    /// Booking: the job would start in the past, be due no later than it starts, or be due past the end.
    JobSlots = 4,
    /// Booking: the work is outside 1 to 600 units.
    JobWork = 5,
    /// Booking: the number is in use.
    NumberOpen = 6,
    /// Booking: there would be more than 64 open jobs or 600 units in all.
    NoRoom = 7,
    /// Booking: the job and an open one would lie one inside the other.
    Nested = 8,
    /// Booking: once it is queued, no speeds keep every due slot.
    NotInTime = 9,
    /// Withdrawing: the number is in no use.
    NoSuchJob = 10,
    /// Planning: too little memory is lent.
    ShortMemory = 11,
    /// Running: every slot has been run.
    StayOver = 12,
    /// Running: there is no standing plan.
    NotPlanned = 13,
}

impl Refusal {
    /// The number by which the refusal is known.
    pub fn number(self) -> u8
        ensures { result ≡ refusal_number self }
    {
        // One line in each enum: a trait for it would be longer.
        self as u8
    }
}
