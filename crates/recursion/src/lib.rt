//! Planning: speeds that are in time, least by a measure, and lowest where measures are level.
#![tactic(auto)]

mod laws;
mod planning;
mod rows;
mod slots;
mod speeds;
mod unplanned;
mod windows;
mod work;

pub use laws::{
    decisions_follow_the_recursion, lawful_lists_are_tested_exactly, planned_choices_are_best,
    planned_speeds_are_best, same_order_same_plan, trials_hold,
};
pub use planning::plan;
pub use speeds::lawful;
pub use unplanned::Unplanned;
pub use work::SlotWork;
