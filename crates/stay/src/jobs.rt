// The open jobs of a table.
ghost use Rattle.std.specs.Prelude.{◌≡◌, ℕ, ◌+◌, ◌-◌, ◌<◌, [], is_some, Some};
ghost use Rattle.ledger.specs.Queue.{enter, strike, work};
ghost use Rattle.ledger.specs.Ledger.{is_open};
ghost use Rattle.stay.specs.Jobs.{queue_of, PlaceOf, without};

use crate::limits::MOST_JOBS;
use crate::table::Table;
use ledger::Job;

impl Table<Job> {
    /// A table with no open job.
    pub(crate) fn empty() -> Table<Job>
        ensures { queue_of result ≡ [] }
    {
        let blank = Job {
            number: 0,
            release: 0,
            due: 0,
            left: 0,
        };
        Table {
            jobs: [blank; MOST_JOBS],
            count: 0,
        }
    }

    /// The units left of all open jobs.
    pub(crate) fn work_left(&self) -> u32
        ensures { result ≡ work (queue_of self.now) }
    {
        self.open().iter().map(|job| job.left as u32).sum()
    }

    /// The place of the open job with the number.
    pub(crate) fn find(&self, number: u32) -> Option<usize>
        ensures found { is_some result ≡ is_open number (queue_of self.now) }
        ensures place { PlaceOf number (queue_of self.now) result }
    {
        self.open().iter().position(|job| job.number == number)
    }

    /// The table with a job entered.
    pub(crate) fn entered(&self, job: Job) -> Table<Job>
        requires { self.now.count < 64 }
        ensures queue { queue_of result ≡ enter job (queue_of self.now) }
        ensures count { result.count ≡ self.now.count + 1 }
    {
        let place = self.place_for(job);
        let mut jobs = self.jobs;
        jobs.copy_within(place..self.count, place + 1);
        jobs[place] = job;
        Table {
            jobs,
            count: self.count + 1,
        }
    }

    /// The table with the job at a place struck out and the gap closed.
    pub(crate) fn struck(&self, place: usize) -> Table<Job>
        requires { place < self.now.count }
        ensures queue { queue_of result ≡ without place (queue_of self.now) }
        ensures strikes { (n : ℕ) → PlaceOf n (queue_of self.now) (Some place) → queue_of result ≡ strike n (queue_of self.now) }
        ensures count { result.count ≡ self.now.count - 1 }
    {
        let mut jobs = self.jobs;
        jobs.copy_within(place + 1..self.count, place);
        Table {
            jobs,
            count: self.count - 1,
        }
    }
}
