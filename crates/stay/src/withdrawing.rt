// Withdrawing a job.
ghost use Rattle.ledger.specs.Ledger.{withdrawing as withdrawing_call};
ghost use Rattle.ledger.specs.Answers.{withdrew};
ghost use Rattle.stay.specs.Calls.{Follows, Kept, answer_of};
ghost use Rattle.stay.specs.Contents.{contents};

use crate::stay::Stay;
use ledger::Refusal;

impl Stay {
    /// Takes out the open job with the number, and answers what was left of it.
    pub(crate) fn withdraw(&mut self, number: u32) -> Result<u16, Refusal>
        ensures follows { Follows (contents self.old) (contents self.new) (withdrawing_call number) (answer_of withdrew result) }
        ensures kept { Kept result self.old self.new }
    {
        let place = self.table.find(number).ok_or(Refusal::NoSuchJob)?;
        let left = self.table.jobs[place].left;
        let table = self.table.struck(place);
        self.take_jobs(table);
        Ok(left)
    }
}
