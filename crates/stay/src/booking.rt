// Booking a job.
ghost use Rattle.std.specs.Prelude.{◌≡◌, ◌+◌, ◌<◌, false, ◌||◌, length, None, Ok, Err, OnOk, nat_le, nat_lt};
ghost use Rattle.ledger.specs.Limits.{most_jobs, most_work};
ghost use Rattle.ledger.specs.Queue.{work as work_of};
ghost use Rattle.ledger.specs.Ledger.{booking as booking_call, can_be_in_time, unless_refused};
ghost use Rattle.ledger.specs.Answers.{booked};
ghost use Rattle.ledger.specs.Promise.{ExactVerdict};
ghost use Rattle.stay.specs.BookingRules.{job_rules, queue_rules};
ghost use Rattle.stay.specs.Calls.{Follows, Kept, answer_of, verdict_of};
ghost use Rattle.stay.specs.Contents.{contents};
ghost use Rattle.stay.specs.Jobs.{queue_of};

use crate::limits::{LARGEST_NUMBER, MOST_JOBS, MOST_WORK};
use crate::stay::Stay;
use crate::table::Table;
use ledger::{Job, Refusal};

impl Table<Job> {
    // Whether a job of so many units would be one too many, or too much work. That there is a place left is told and asked
    // by clauses, since it is not true of every table.
    fn is_full(&self, units: u16) -> bool
        ensures told { result ≡ (nat_le most_jobs (length (queue_of self.now)) || nat_lt most_work (work_of (queue_of self.now) + units)) }
        ensures room { result ≡ false → self.now.count < 64 }
    {
        self.open().len() >= MOST_JOBS || self.work_left().saturating_add(units as u32) > MOST_WORK
    }
}

impl Stay {
    // The job that is asked for, unless its own numbers refuse it.
    fn checked_job(&self, number: u32, release: u32, due: u32, work: u32) -> Result<Job, Refusal>
        ensures { result ≡ unless_refused (job_rules self.now.clock self.now.slots (record { number = number; release = release; due = due; left = work }) None) Err (Ok (record { number = number; release = release; due = due; left = work })) }
    {
        if number == 0 || number > LARGEST_NUMBER {
            return Err(Refusal::JobNumber);
        }
        if release < self.clock as u32 || due <= release || due > self.slots as u32 {
            return Err(Refusal::JobSlots);
        }
        if work == 0 || work > MOST_WORK {
            return Err(Refusal::JobWork);
        }
        // Each cast follows the test that makes it fit.
        Ok(Job {
            number,
            release: release as u8,
            due: due as u8,
            left: work as u16,
        })
    }

    // Whether the queue takes a job in: its number, the room, the nesting.
    fn admits(&self, job: Job) -> Result<(), Refusal>
        ensures told { result ≡ unless_refused (queue_rules self.now.clock (queue_of self.now.table) job None) Err (Ok tt) }
        ensures room { OnOk result (self.now.table.count < 64) }
    {
        if self.table.find(job.number).is_some() {
            return Err(Refusal::NumberOpen);
        }
        if self.table.is_full(job.left) {
            return Err(Refusal::NoRoom);
        }
        if self.table.nests(self.clock, job) {
            return Err(Refusal::Nested);
        }
        Ok(())
    }

    // Whether some sequence would be in time for these open jobs.
    fn has_room_for(&self, table: Table<Job>) -> bool
        ensures { result ≡ can_be_in_time (contents self.now) (queue_of table) }
    {
        table.has_room(self.ahead(), self.speeds)
    }

    /// Books a job, and answers how many jobs are open with it.
    // The four numbers stay apart, as the caller has them: a job is made once they are checked.
    pub(crate) fn book(
        &mut self,
        number: u32,
        release: u32,
        due: u32,
        work: u32,
    ) -> Result<u8, Refusal>
        ensures follows { Follows (contents self.old) (contents self.new) (booking_call (record { number = number; release = release; due = due; left = work })) (answer_of booked result) }
        ensures exact { ExactVerdict (contents self.old) (record { number = number; release = release; due = due; left = work }) (verdict_of result) }
        ensures kept { Kept result self.old self.new }
    {
        let job = self.checked_job(number, release, due, work)?;
        self.admits(job)?;
        let table = self.table.entered(job);
        if !self.has_room_for(table) {
            return Err(Refusal::NotInTime);
        }
        self.take_jobs(table);
        // The cast fits: there are at most 64 jobs.
        Ok(table.count as u8)
    }
}
