// A stay without jobs.
ghost use Rattle.std.specs.Prelude.{◌≡◌, true, [], None, take};
ghost use Rattle.ledger.specs.Ledger.{ledger};
ghost use Rattle.ledger.specs.SoundTest.{sound as is_sound};
ghost use Rattle.stay.specs.Contents.{contents};
ghost use Rattle.stay.specs.Image.{anew};

use crate::speed_list::SpeedList;
use crate::stay::Stay;
use crate::table::Table;

impl Stay {
    /// One slot, speeds 0 and 1, clock 0, no jobs, no plan.
    pub(crate) fn new() -> Stay
        ensures holds { contents result ≡ ledger [] }
        ensures unplanned { result.plan ≡ None }
    {
        Stay::opened(1, SpeedList::nought_and_one())
    }

    /// Just opened: clock 0, no jobs, no plan.
    pub(crate) fn opened(slots: u8, speeds: SpeedList) -> Stay
        requires { is_sound (anew slots (take speeds.count speeds.speeds)) ≡ true }
        ensures holds { contents result ≡ anew slots (take speeds.count speeds.speeds) }
        ensures unplanned { result.plan ≡ None }
    {
        Stay {
            slots,
            speeds,
            clock: 0,
            table: Table::empty(),
            plan: None,
        }
    }
}
