// Running a slot.
ghost use Rattle.ledger.specs.Ledger.{running as running_call};
ghost use Rattle.ledger.specs.Answers.{ran};
ghost use Rattle.stay.specs.Calls.{Follows, Kept, answer_of};
ghost use Rattle.stay.specs.Contents.{contents};

use crate::stay::Stay;
use ledger::Refusal;

impl Stay {
    /// Runs the slot at the clock by the standing plan; answers the speed, how many units were pumped and how many jobs ended.
    pub(crate) fn run(&mut self) -> Result<(u8, u16, u8), Refusal>
        ensures follows { Follows (contents self.old) (contents self.new) running_call (answer_of (λ t. ran t.0 t.1 t.2) result) }
        ensures kept { Kept result self.old self.new }
    {
        if self.clock >= self.slots {
            return Err(Refusal::StayOver);
        }
        let plan = self.plan.ok_or(Refusal::NotPlanned)?;
        let speed = plan.speeds[self.clock as usize];
        let outcome = self.table.pump(self.clock, speed);
        // Written whole, so that clock and jobs change at once; field by field, since `..` is refused beside a ghost field.
        *self = Stay {
            slots: self.slots,
            speeds: self.speeds,
            clock: self.clock + 1,
            table: outcome.table,
            plan: self.plan,
        };
        Ok((speed, outcome.units, outcome.finished))
    }
}
