//! What a stay is compared with: the ledger, and what is promised of it after every list of calls.
#![tactic(auto)]

mod job;
mod laws;
mod refusal;
mod tables;

pub use job::Job;
pub use laws::{
    answers_are_lawful, first_served_pins_a_slot, ledger_is_sound, measured_plan_is_best,
    open_work_arrives, promise_holds, questions_are_lawful, runs_and_work_sums_agree,
    top_speed_decides,
};
pub use refusal::Refusal;
pub use tables::{edges_hold, trials_hold, wrong_ways_are_refuted};
