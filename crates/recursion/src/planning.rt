// Planning: the rows from the last slot back to the first, then the speeds read off from the first on.
ghost use Rattle.std.specs.Prelude.{◌≡◌, ℕ, ◌+◌, ◌*◌, ◌<◌, ◌≤◌, max, true, length, slice_index, slice_index_or};
ghost use Rattle.recursion.specs.Staged.{best, least};
ghost use Rattle.recursion.specs.Planning.{plan_answer, places_after, Promised, KeptUnlessPlanned};
ghost use Rattle.recursion.specs.Pumps.{decisions, planned_speeds};
ghost use Rattle.recursion.specs.Speeds.{top_of};
ghost use Rattle.recursion.specs.Work.{due_at, pump_of};
ghost use Rattle.recursion.specs.Windows.{keeps_up, reach_at};
ghost use Rattle.recursion.specs.Rows.{HoldsPlan};

use super::rows::fill_row;
use super::slots::{SlotsLeft, check_slots};
use super::speeds::LawfulSpeeds;
use super::windows::Window;
use super::{SlotWork, Unplanned};
use measure::Measure;
use tariff::Tariff;

// The row after the last slot: nothing is left to pay.
fn last_row<M: Measure>(row: &mut [M], high: usize)
    requires { high < length row.old }
    ensures { (e : ℕ) → e ≤ high → slice_index_or row.new e M.Measure.kind.nought ≡ M.Measure.kind.nought }
{
    let nought = M::nought();
    row[..high + 1].fill_with(|| nought);
}

// Fills the table of speeds, a row for each slot, and answers the least measure from the first slot on.
// Of the measures only two rows are kept, the next slot's and this one's, in turn.
// The two memories stay apart, as `plan` is lent them: its signature is public.
fn fill<T: Tariff, M: Measure>(
    tariff: &T,
    speeds: LawfulSpeeds,
    slots: SlotsLeft,
    reach: &[usize; 97],
    bytes: &mut [u8],
    measures: &mut [M],
) -> M
    requires memory { (length slots.work.now * slots.width ≤ length bytes.old) × (2 * slots.width ≤ length measures.old) }
    requires possible { keeps_up (top_of speeds.listed.now) slots.work.now 0 ≡ true }
    requires reached { (i : ℕ) → i ≤ length slots.work.now → slice_index reach.now i ≡ reach_at (top_of speeds.listed.now) slots.work.now 0 i }
    ensures table { let ss = speeds.entry.listed.now in let y = pump_of ss slots.entry.first slots.entry.work.now (T.Tariff.charge tariff.now) in HoldsPlan M.Measure.kind y (top_of ss) slots.entry.first slots.entry.work.now slots.entry.width 0 bytes.new }
    ensures answer { let y = pump_of speeds.entry.listed.now slots.entry.first slots.entry.work.now (T.Tariff.charge tariff.now) in (s : ℕ) × (least M.Measure.kind (decisions y) (length slots.entry.work.now) slots.entry.first 0 ≡ best s result) }
{
    let work = slots.work;
    let width = slots.width;
    let top = speeds.top() as usize;
    let (mut next, mut row) = measures.split_at_mut(width);
    last_row(next, reach[work.len()]);
    let mut low = 0;
    for (i, slot) in work.iter().enumerate().rev() {
        let need = (slot.due as usize).max(low);
        low = need.saturating_sub(top);
        let window = Window {
            low,
            high: reach[i],
            need,
            arrived: slot.arrived as usize,
        };
        // Cut out by its place: after `chunks_mut` a proof knows no element of the table.
        let picks = &mut bytes[i * width..(i + 1) * width];
        fill_row(tariff, speeds, slots.first + i, window, next, row, picks);
        (next, row) = (row, next);
    }
    next[0]
}

/// Plans the speeds of the slots left: in time, of the least measure, the lowest where measures are level.
///
/// `work` has the running totals of each slot left, the first of which has the number `first`; `chosen` has a place for each
/// speed.
/// The lent memory is a byte for each slot and work done, and two rows of measures; an accepted plan leaves there what
/// it will. A refusal changes nothing.
pub fn plan<T: Tariff, M: Measure>(
    tariff: &T,
    speeds: &[u8],
    first: usize,
    work: &[SlotWork],
    bytes: &mut [u8],
    measures: &mut [M],
    chosen: &mut [u8],
) -> Result<M, Unplanned>
    ensures answer { result ≡ plan_answer M.Measure.kind (pump_of speeds.now first work.now (T.Tariff.charge tariff.now)) first work.now (length bytes.old) (length measures.old) (length chosen.old) }
    ensures chosen { chosen.new ≡ places_after result (planned_speeds M.Measure.kind (pump_of speeds.now first work.now (T.Tariff.charge tariff.now)) (length work.now) first 0) chosen.old }
    ensures promise { Promised M.Measure.kind (pump_of speeds.now first work.now (T.Tariff.charge tariff.now)) (length work.now) first chosen.new result }
    ensures bytes { KeptUnlessPlanned result bytes.old bytes.new }
    ensures measures { KeptUnlessPlanned result measures.old measures.new }
{
    check_slots(first, work, chosen.len())?;
    let speeds = LawfulSpeeds::try_from(speeds)?;
    let slots = SlotsLeft::new(first, work);
    slots.check_memory(bytes.len(), measures.len())?;
    let reach = slots.reach_at_top(speeds.top())?;
    let least = fill(tariff, speeds, slots, &reach, bytes, measures);
    slots.follow(bytes, chosen);
    Ok(least)
}
