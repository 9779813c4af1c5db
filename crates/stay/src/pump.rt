// One slot pumped.
ghost use Rattle.std.specs.Prelude.{◌≡◌, ◌≤◌, ◌==◌};
ghost use Rattle.ledger.specs.Queue.{share, pumped, units_pumped, finished as jobs_finished, unfinished, pump_slot};
ghost use Rattle.stay.specs.Jobs.{queue_of};

use crate::table::Table;
use ledger::Job;

/// A table after a slot, the units pumped and the jobs finished.
#[derive(Clone, Copy)]
pub(crate) struct Outcome {
    pub(crate) table: Table<Job>,
    pub(crate) units: u16,
    pub(crate) finished: u8,
}

// A table whose jobs are lowered, and the units that they lost.
#[derive(Clone, Copy)]
struct Lowering {
    table: Table<Job>,
    units: u16,
}

// What a job loses in a slot where `rest` remains of the speed.
fn share_of(job: Job, slot: u8, rest: u16) -> u16
    ensures { result ≡ share slot rest job }
{
    if job.release <= slot {
        job.left.min(rest)
    } else {
        0
    }
}

fn is_finished(job: Job) -> bool
    ensures { result ≡ (job.left == 0) }
{
    job.left == 0
}

impl Table<Job> {
    // One slot at a speed, in queue order; finished jobs stay in the table.
    fn lowered(&self, slot: u8, speed: u8) -> Lowering
        ensures queue { queue_of result.table ≡ pumped slot speed (queue_of self.now) }
        ensures count { result.table.count ≡ self.now.count }
        ensures units { result.units ≡ units_pumped slot speed (queue_of self.now) }
    {
        let mut t = *self;
        let mut rest = speed as u16;
        // By place: a job is lowered through the loan of `job_mut`, which is a rule of the project.
        for i in 0..self.count {
            let by = share_of(t.jobs[i], slot, rest);
            t.job_mut(i).left -= by;
            rest -= by;
        }
        Lowering {
            table: t,
            units: speed as u16 - rest,
        }
    }

    // The table without its finished jobs.
    fn tidied(&self) -> Table<Job>
        ensures queue { queue_of result ≡ unfinished (queue_of self.now) }
        ensures count { result.count ≤ self.now.count }
    {
        // By place: a job's new place is not where it stood, and no iterator form is plainer.
        let mut jobs = self.jobs;
        let mut count = 0;
        for job in self.open() {
            if !is_finished(*job) {
                jobs[count] = *job;
                count += 1;
            }
        }
        Table { jobs, count }
    }

    /// The table after a slot at a speed, in queue order.
    pub(crate) fn pump(&self, slot: u8, speed: u8) -> Outcome
        ensures queue { queue_of result.table ≡ pump_slot slot speed (queue_of self.now) }
        ensures units { result.units ≡ units_pumped slot speed (queue_of self.now) }
        ensures finished { result.finished ≡ jobs_finished (pumped slot speed (queue_of self.now)) }
    {
        let low = self.lowered(slot, speed);
        let tidy = low.table.tidied();
        Outcome {
            table: tidy,
            units: low.units,
            // The cast fits: there are at most 64 jobs.
            finished: (self.count - tidy.count) as u8,
        }
    }
}
