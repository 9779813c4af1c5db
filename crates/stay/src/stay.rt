// What a stay holds.
ghost use Rattle.std.specs.Prelude.{◌≡◌, true};
ghost use Rattle.stay.specs.Image.{image};
ghost use Rattle.ledger.specs.SoundTest.{sound as is_sound};

use crate::plan_record::PlanRecord;
use crate::speed_list::SpeedList;
use crate::table::Table;
use ledger::Job;

/// A stay. What it holds is sound: within its limits, its queue in order and unnested, no open job overdue, some sequence
/// of listed speeds in time, and the speeds of a standing plan one such sequence.
#[derive(Clone, Copy)]
pub(crate) struct Stay {
    pub(crate) slots: u8,
    pub(crate) speeds: SpeedList,
    pub(crate) clock: u8,
    pub(crate) table: Table<Job>,
    pub(crate) plan: Option<PlanRecord>,
    ghost sound: { is_sound (image slots speeds clock table plan) ≡ true },
}
