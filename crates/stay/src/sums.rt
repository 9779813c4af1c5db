// The work sums of a table.
ghost use Rattle.std.specs.Prelude.{◌≡◌, ◌≤◌, cond};
ghost use Rattle.ledger.specs.Queue.{arrived, owed};
ghost use Rattle.stay.specs.Jobs.{queue_of};

use crate::table::Table;
use ledger::Job;

// What is left of a job, if it counts.
fn left_if(counts: bool, job: Job) -> u32
    ensures units { result ≡ cond counts job.left 0 }
    ensures within { result ≤ 65535 }
{
    if counts { job.left as u32 } else { 0 }
}

impl Table<Job> {
    /// The work sums of a slot: its due work and its arrived work. This one part answers both, in this order.
    // A loop, since it makes both in one pass over the open jobs; a chain of each would go over them twice.
    pub(crate) fn work_sums(&self, slot: u8) -> (u32, u32)
        ensures { result ≡ (owed (queue_of self.now) slot, arrived (queue_of self.now) slot) }
    {
        let mut due = 0;
        let mut arrived = 0;
        for job in self.open() {
            due += left_if(job.due <= slot, *job);
            arrived += left_if(job.release <= slot, *job);
        }
        (due, arrived)
    }
}
