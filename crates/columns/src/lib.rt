//! Fixed-column text: lines and numbers read where they stand, numbers written into columns, and the faults of both.
#![tactic(auto)]

pub mod faults;
pub mod fields;
pub mod laws;
pub mod lines;
pub mod numbers;
#[cfg(test)]
mod tests;
