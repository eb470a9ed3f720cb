//! Runs a list of calls on a new endpoint.
#![tactic(auto)]

pub mod pool;
pub mod run;
pub mod step;
