// Whether jobs lie inside one another.
ghost use Rattle.std.specs.Prelude.{◌≡◌, ◌||◌};
ghost use Rattle.ledger.specs.Queue.{counted, inside};
ghost use Rattle.ledger.specs.Ledger.{nested};
ghost use Rattle.stay.specs.Jobs.{queue_of};

use crate::table::Table;
use ledger::Job;

// The later of a job's release and the clock.
fn counted_release(job: Job, clock: u8) -> u8
    ensures { result ≡ counted clock job }
{
    job.release.max(clock)
}

// Whether job i lies inside job j.
fn lies_inside(i: Job, j: Job, clock: u8) -> bool
    ensures { result ≡ inside clock i j }
{
    counted_release(j, clock) < counted_release(i, clock) && i.due < j.due
}

fn either_inside(i: Job, j: Job, clock: u8) -> bool
    ensures { result ≡ (inside clock i j || inside clock j i) }
{
    lies_inside(i, j, clock) || lies_inside(j, i, clock)
}

impl Table<Job> {
    /// Whether a job would lie inside an open one, or an open one inside it.
    pub(crate) fn nests(&self, clock: u8, job: Job) -> bool
        ensures { result ≡ nested clock job (queue_of self.now) }
    {
        self.open()
            .iter()
            .any(|other| either_inside(job, *other, clock))
    }
}
