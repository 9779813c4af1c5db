// Questions, which change nothing.
ghost use Rattle.std.specs.Prelude.{◌≡◌};
ghost use Rattle.ledger.specs.Answers.{clock_of, job_at, speed_at, mark_of};
ghost use Rattle.stay.specs.Contents.{contents};

use crate::stay::Stay;
use ledger::Job;

impl Stay {
    /// The clock: how many slots have been run, which is the number of the next one.
    pub(crate) fn clock(&self) -> u8
        ensures { result ≡ clock_of (contents self.now) }
    {
        self.clock
    }

    /// The open job at a place of the queue, from 0.
    pub(crate) fn job_at(&self, place: u32) -> Option<Job>
        ensures { result ≡ job_at (contents self.now) place }
    {
        self.table.open().get(place as usize).copied()
    }

    /// The standing speed of a slot not yet run.
    pub(crate) fn speed_at(&self, slot: u32) -> Option<u8>
        ensures { result ≡ speed_at (contents self.now) slot }
    {
        let plan = self.plan.as_ref()?;
        self.ahead()
            .contains(slot)
            .then(|| plan.speeds[slot as usize])
    }

    /// The mark of the standing plan.
    pub(crate) fn mark(&self) -> Option<u8>
        ensures { result ≡ mark_of (contents self.now) }
    {
        self.plan.map(|plan| plan.mark)
    }
}
