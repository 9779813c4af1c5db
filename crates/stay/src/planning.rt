// Planning the slots left.
ghost use Rattle.std.specs.Prelude.{◌≡◌, ◌+◌, ◌-◌, ◌≤◌, true, cond, length, take, Some, Ok, Err, nat_lt};
ghost use Rattle.measure.specs.Kinds.{measure_of};
ghost use Rattle.measure.specs.Orders.{order_of};
ghost use Rattle.ledger.specs.Limits.{most_work};
ghost use Rattle.ledger.specs.Queue.{arrived, owed, work as work_of};
ghost use Rattle.ledger.specs.Ledger.{planning as planning_call, plan_for, charges_of, refusal, unless_refused, with_plan};
ghost use Rattle.ledger.specs.Answers.{planned};
ghost use Rattle.ledger.specs.SoundTest.{sound as is_sound};
ghost use Rattle.stay.specs.Calls.{Follows, PlansOwn, MeasureIs, Kept, Lent, answer_of};
ghost use Rattle.stay.specs.Contents.{contents};
ghost use Rattle.stay.specs.Image.{standing_of};
ghost use Rattle.stay.specs.Jobs.{queue_of};
ghost use Rattle.stay.specs.Tariffs.{charges_by};
ghost use Rattle.stay.specs.Works.{work_ahead, Placed};

use crate::limits::MOST_SLOTS;
use crate::plan_record::PlanRecord;
use crate::slots_ahead::SlotsAhead;
use crate::stay::Stay;
use crate::table::Table;
use ledger::{Job, Refusal};
use measure::Measure;
use recursion::{SlotWork, plan};
use std::array::from_fn;
use tariff::Tariff;

impl Table<Job> {
    // The work of a slot, as planning is told it: what is due by its end, and what has arrived by it. That the open work is
    // at most 600 is asked here, since it is true of a stay's table and not of every table.
    fn slot_work(&self, slot: u8) -> SlotWork
        requires { (work_of (queue_of self.now) ≤ most_work) × (slot ≤ 95) }
        ensures { result ≡ record { due = owed (queue_of self.now) (slot + 1); arrived = arrived (queue_of self.now) slot } }
    {
        // The casts fit: no sum is above the open work, which is at most 600.
        SlotWork {
            due: self.work_sums(slot + 1).0 as u16,
            arrived: self.work_sums(slot).1 as u16,
        }
    }

    // The work of the slot at a place of the slots ahead; behind the last of them no sum is made.
    fn work_at(&self, ahead: SlotsAhead, place: usize) -> SlotWork
        requires { work_of (queue_of self.now) ≤ most_work }
        ensures { result ≡ cond (nat_lt place (ahead.slots - ahead.clock)) (record { due = owed (queue_of self.now) (ahead.clock + place + 1); arrived = arrived (queue_of self.now) (ahead.clock + place) }) (record { due = 0; arrived = 0 }) }
    {
        if place < ahead.left() as usize {
            // The cast fits: a stay has at most 96 slots.
            self.slot_work(ahead.clock + place as u8)
        } else {
            SlotWork { due: 0, arrived: 0 }
        }
    }

    // The work of the slots ahead, in the first places; the rest are not read. A fixed array: the library has no heap.
    fn work_ahead(&self, ahead: SlotsAhead) -> [SlotWork; MOST_SLOTS]
        requires { work_of (queue_of self.now) ≤ most_work }
        ensures { take (ahead.slots - ahead.clock) result ≡ work_ahead (queue_of self.now) ahead.clock (ahead.slots - ahead.clock) }
    {
        from_fn(|i| self.work_at(ahead, i))
    }
}

impl Stay {
    /// The slots still to be run.
    pub(crate) fn ahead(&self) -> SlotsAhead
        ensures clock { result.clock ≡ self.now.clock }
        ensures slots { result.slots ≡ self.now.slots }
    {
        SlotsAhead {
            clock: self.clock,
            slots: self.slots,
        }
    }

    // Makes a plan the standing one.
    fn take_plan(&mut self, plan: PlanRecord)
        requires { is_sound (with_plan (standing_of self.old.slots self.old.clock (Some plan)) (contents self.old)) ≡ true }
        ensures { contents self.new ≡ with_plan (standing_of self.old.slots self.old.clock (Some plan)) (contents self.old) }
    {
        self.plan = Some(plan);
    }

    // Puts the best speeds of the slots left into the places of these slots, and answers their measure. The two memories stay
    // apart, as the caller lends them.
    fn best_speeds<T: Tariff, M: Measure>(
        &self,
        tariff: &T,
        bytes: &mut [u8],
        measures: &mut [M],
        speeds: &mut [u8; MOST_SLOTS],
    ) -> Result<M, Refusal>
        ensures answer { let t = charges_by T.Tariff.charge T.Tariff.bounded tariff.now in let best = plan_for (contents self.now) t (order_of M.Measure.laws) in result ≡ unless_refused (refusal (contents self.now) (planning_call t (order_of M.Measure.laws) M.Measure.MARK (length bytes.old) (length measures.old))) Err (Ok (measure_of M.Measure.kind (charges_of (contents self.now) t best))) }
        ensures speeds { let t = charges_by T.Tariff.charge T.Tariff.bounded tariff.now in let best = plan_for (contents self.now) t (order_of M.Measure.laws) in Placed result self.now.clock self.now.slots best speeds.old speeds.new }
        ensures bytes { Lent result bytes.old bytes.new }
        ensures measures { Lent result measures.old measures.new }
    {
        let ahead = self.ahead();
        let left = ahead.left() as usize;
        let first = self.clock as usize;
        let end = self.slots as usize;
        let work = self.table.work_ahead(ahead);
        // On a stay only short memory can refuse a plan.
        plan(
            tariff,
            self.speeds.listed(),
            first,
            &work[..left],
            bytes,
            measures,
            &mut speeds[first..end],
        )
        .map_err(|_| Refusal::ShortMemory)
    }

    /// Plans the slots left at the least measure, and makes that the standing plan; answers how many slots that is, and
    /// the measure. The lent memory is a byte for each slot left and each work done from 0 to the open work, and two measures for
    /// each such work done; an accepted plan leaves there what it will.
    pub(crate) fn plan<T: Tariff, M: Measure>(
        &mut self,
        tariff: &T,
        bytes: &mut [u8],
        measures: &mut [M],
    ) -> Result<(u8, M), Refusal>
        ensures follows { let t = charges_by T.Tariff.charge T.Tariff.bounded tariff.now in let best = plan_for (contents self.old) t (order_of M.Measure.laws) in Follows (contents self.old) (contents self.new) (planning_call t (order_of M.Measure.laws) M.Measure.MARK (length bytes.old) (length measures.old)) (answer_of (λ p. planned p.0 (charges_of (contents self.old) t best)) result) }
        ensures measure { let t = charges_by T.Tariff.charge T.Tariff.bounded tariff.now in let best = plan_for (contents self.old) t (order_of M.Measure.laws) in MeasureIs M.Measure.kind (charges_of (contents self.old) t best) result }
        ensures own { let t = charges_by T.Tariff.charge T.Tariff.bounded tariff.now in PlansOwn M.Measure.kind t M.Measure.MARK (contents self.old) (contents self.new) result }
        ensures kept { Kept result self.old self.new }
        ensures bytes { Lent result bytes.old bytes.new }
        ensures measures { Lent result measures.old measures.new }
    {
        let mut best = PlanRecord::blank(M::MARK);
        let measure = self.best_speeds(tariff, bytes, measures, &mut best.speeds)?;
        self.take_plan(best);
        Ok((self.ahead().left(), measure))
    }
}
