//! Lists of calls and their answers, as plain values.
#![tactic(auto)]

pub mod answer;
pub mod call;
