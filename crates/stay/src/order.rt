// The order of the queue.
ghost use Rattle.std.specs.Prelude.{◌≡◌, ◌≤◌, ◌∷◌, ◌++◌, take, drop};
ghost use Rattle.ledger.specs.Queue.{before, enter};
ghost use Rattle.stay.specs.Jobs.{queue_of};

use crate::table::Table;
use ledger::Job;

// Whether one job goes before another or is level with it.
fn goes_before(i: Job, j: Job) -> bool
    ensures { result ≡ before i j }
{
    (i.due, i.release) <= (j.due, j.release)
}

impl Table<Job> {
    /// The place behind all open jobs that go before a job or are level with it.
    pub(crate) fn place_for(&self, job: Job) -> usize
        ensures within { result ≤ self.now.count }
        ensures place { enter job (queue_of self.now) ≡ take result (queue_of self.now) ++ (job ∷ drop result (queue_of self.now)) }
    {
        self.open()
            .iter()
            .position(|other| !goes_before(*other, job))
            .unwrap_or(self.count)
    }
}
