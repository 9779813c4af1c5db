// The test for room.
ghost use Rattle.std.specs.Prelude.{◌≡◌, ℕ, ◌+◌, ◌-◌, ◌<◌, min, cond, List, take, replicate, Some, None, nat_le};
ghost use Rattle.tariff.specs.Checks.{TestIsExact};
ghost use Rattle.ledger.specs.Queue.{arrived, owed};
ghost use Rattle.ledger.specs.Ledger.{pump_for, no_charge, keeps_time};
ghost use Rattle.stay.specs.Jobs.{queue_of};
ghost use Rattle.stay.specs.Room.{Room};

use crate::slots_ahead::SlotsAhead;
use crate::speed_list::SpeedList;
use crate::table::Table;
use ledger::Job;

impl Table<Job> {
    // The work done after a slot at a speed: no more than has arrived.
    fn done_after(&self, slot: u8, done: u32, speed: u8) -> u32
        ensures { result ≡ min (done + speed) (arrived (queue_of self.now) slot) }
    {
        done.saturating_add(speed as u32)
            .min(self.work_sums(slot).1)
    }

    // The work done after a slot at a speed, unless that is less than what is due by its end.
    fn in_time_after(&self, slot: u8, done: u32, speed: u8) -> Option<u32>
        requires { slot < 255 }
        ensures { result ≡ cond (nat_le (owed (queue_of self.now) (slot + 1)) (min (done + speed) (arrived (queue_of self.now) slot))) (Some (min (done + speed) (arrived (queue_of self.now) slot))) None }
    {
        let done = self.done_after(slot, done, speed);
        (self.work_sums(slot + 1).0 <= done).then_some(done)
    }

    // Whether one speed in every slot ahead is in time, whatever speeds are listed.
    fn keeps_time(&self, ahead: SlotsAhead, speed: u8) -> bool
        ensures { (listed : List ℕ) → result ≡ keeps_time (pump_for listed (queue_of self.now) no_charge) ahead.clock 0 (replicate (ahead.slots - ahead.clock) speed) }
    {
        (ahead.clock..ahead.slots)
            .try_fold(0, |done, slot| self.in_time_after(slot, done, speed))
            .is_some()
    }

    /// Whether some sequence of listed speeds is in time for the open jobs, in the slots ahead.
    pub(crate) fn has_room(&self, ahead: SlotsAhead, speeds: SpeedList) -> bool
        ensures { TestIsExact (Room ahead.slots (take speeds.count speeds.speeds) ahead.clock (queue_of self.now)) result }
    {
        self.keeps_time(ahead, speeds.top())
    }
}
