// Opening a stay.
ghost use Rattle.std.specs.Prelude.{◌≡◌, ◌||◌, ◌==◌, nat_lt};
ghost use Rattle.ledger.specs.Limits.{most_slots};
ghost use Rattle.ledger.specs.Ledger.{opening as opening_call};
ghost use Rattle.ledger.specs.Answers.{opened};
ghost use Rattle.stay.specs.Calls.{Follows, Kept, answer_of};
ghost use Rattle.stay.specs.Contents.{contents};

use crate::limits::MOST_SLOTS;
use crate::speed_list::SpeedList;
use crate::stay::Stay;
use ledger::Refusal;

// Whether no stay has so many slots.
fn is_no_slot_count(slots: u32) -> bool
    ensures { result ≡ (slots == 0 || nat_lt most_slots slots) }
{
    slots == 0 || slots as usize > MOST_SLOTS
}

impl Stay {
    /// Opens the stay anew with its slots and its listed speeds.
    pub(crate) fn open(&mut self, slots: u32, speeds: &[u32]) -> Result<(), Refusal>
        ensures follows { Follows (contents self.old) (contents self.new) (opening_call slots speeds.now) (answer_of (λ _. opened) result) }
        ensures kept { Kept result self.old self.new }
    {
        if is_no_slot_count(slots) {
            return Err(Refusal::SlotCount);
        }
        let listed = SpeedList::from_slice(speeds).ok_or(Refusal::SpeedList)?;
        // The cast fits: a stay has at most 96 slots.
        *self = Stay::opened(slots as u8, listed);
        Ok(())
    }
}
