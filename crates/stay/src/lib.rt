//! A stay: its speed list, its job table, its plan, and the calls on it, which are not public yet.
#![tactic(auto)]

mod booking;
mod histories;
mod job_change;
mod jobs;
mod limits;
mod nesting;
mod new_stay;
mod opening;
mod order;
mod plan_record;
mod planning;
mod pump;
mod questions;
mod room;
mod running;
mod slots_ahead;
mod speed_list;
mod speeds;
mod stay;
mod sums;
mod table;
#[cfg(test)]
mod tests;
#[cfg(test)]
mod trials;
mod withdrawing;

pub use speed_list::SpeedList;
