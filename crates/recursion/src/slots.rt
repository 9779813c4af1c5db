// The slots left, and how far top speed comes in them.
ghost use Rattle.std.specs.Prelude.{◌≡◌, ℕ, ◌+◌, ◌*◌, ◌≤◌, true, false, length, slice_index, MatchResult};
ghost use Rattle.recursion.specs.Planning.{row_width, slots_wrong, memory_short};
ghost use Rattle.recursion.specs.Rows.{followed};
ghost use Rattle.recursion.specs.Work.{most_arrived};
ghost use Rattle.recursion.specs.Windows.{keeps_up, reach_at};
ghost use Rattle.recursion.specs.declared.unplanned.Unplanned.TheVariants.{Slots as SlotsWrong, Memory, Late};

use super::{SlotWork, Unplanned};

// The most work that has arrived by any of the slots.
fn most_arrived(work: &[SlotWork]) -> u16
    ensures { result ≡ most_arrived work.now }
{
    work.iter().map(|slot| slot.arrived).max().unwrap_or(0)
}

// The slots left, from the one of number `first` on, none past the 96th. Their table has a row for each slot, and a row a
// place for each work done from 0 to the most that has arrived.
#[derive(Clone, Copy)]
pub(crate) struct SlotsLeft<'a> {
    pub(crate) first: usize,
    pub(crate) work: &'a [SlotWork],
    pub(crate) width: usize,
    ghost within: { first + length work.now ≤ 96 },
    ghost wide: { width ≡ row_width work.now },
    ghost narrow: { width ≤ 65536 },
}

// Refuses slots that pass the 96th, and places for the speeds that are not as many.
pub(crate) fn check_slots(first: usize, work: &[SlotWork], places: usize) -> Result<(), Unplanned>
    ensures { MatchResult result (λ u. slots_wrong first work.now places ≡ false) (λ e. (e ≡ SlotsWrong) × (slots_wrong first work.now places ≡ true)) }
{
    if first > 96 || work.len() > 96 - first || places != work.len() {
        return Err(Unplanned::Slots);
    }
    Ok(())
}

impl<'a> SlotsLeft<'a> {
    // The slots, once they are checked. Apart from the check, since this goes over all the work, which other refusals need not.
    pub(crate) fn new(first: usize, work: &'a [SlotWork]) -> Self
        requires { first + length work.now ≤ 96 }
        ensures { (result.first ≡ first) × (result.work.now ≡ work.now) }
    {
        SlotsLeft {
            first,
            work,
            width: most_arrived(work) as usize + 1,
        }
    }

    // Refuses lent memory that is short.
    pub(crate) fn check_memory(self, bytes: usize, measures: usize) -> Result<(), Unplanned>
        ensures { MatchResult result (λ u. memory_short self.entry.work.now bytes measures ≡ false) (λ e. (e ≡ Memory) × (memory_short self.entry.work.now bytes measures ≡ true)) }
    {
        if bytes < self.work.len() * self.width || measures < 2 * self.width {
            return Err(Unplanned::Memory);
        }
        Ok(())
    }

    // The work that top speed does by the start of each slot and at the end, if it keeps every due slot.
    pub(crate) fn reach_at_top(self, top: u8) -> Result<[usize; 97], Unplanned>
        ensures { MatchResult result (λ reach. (keeps_up top self.entry.work.now 0 ≡ true) × ((i : ℕ) → i ≤ length self.entry.work.now → slice_index reach i ≡ reach_at top self.entry.work.now 0 i)) (λ e. (e ≡ Late) × (keeps_up top self.entry.work.now 0 ≡ false)) }
    {
        // A fixed array, since no memory is allocated here; by index, since each place is made from the one before: behind a
        // `zip` of `iter_mut` a proof knows no element.
        let mut reach = [0usize; 97];
        for (i, slot) in self.work.iter().enumerate() {
            let done = (reach[i] + top as usize).min(slot.arrived as usize);
            if done < slot.due as usize {
                return Err(Unplanned::Late);
            }
            reach[i + 1] = done;
        }
        Ok(reach)
    }

    // Reads the speeds off the table, from work done 0 on.
    pub(crate) fn follow(self, table: &[u8], chosen: &mut [u8])
        requires { (length self.work.now * self.width ≤ length table.now) × (length chosen.old ≡ length self.work.now) }
        ensures { chosen.new ≡ followed self.entry.width table.now self.entry.work.now 0 0 }
    {
        let mut done = 0usize;
        for (i, place) in chosen.iter_mut().enumerate() {
            *place = table[i * self.width + done];
            done = (done + *place as usize).min(self.work[i].arrived as usize);
        }
    }
}
