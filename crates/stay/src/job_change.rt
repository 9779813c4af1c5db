// What a booking and a withdrawal make of a stay.
ghost use Rattle.std.specs.Prelude.{◌≡◌, true};
ghost use Rattle.ledger.specs.Ledger.{with_queue};
ghost use Rattle.ledger.specs.SoundTest.{sound as is_sound};
ghost use Rattle.stay.specs.Contents.{contents};
ghost use Rattle.stay.specs.Jobs.{queue_of};

use crate::stay::Stay;
use crate::table::Table;
use ledger::Job;

impl Stay {
    /// Takes other open jobs; a plan made for the old ones stands no more.
    pub(crate) fn take_jobs(&mut self, table: Table<Job>)
        requires { is_sound (with_queue (queue_of table) (contents self.old)) ≡ true }
        ensures { contents self.new ≡ with_queue (queue_of table) (contents self.old) }
    {
        self.table = table;
        self.plan = None;
    }
}
