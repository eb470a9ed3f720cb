//! What connections hold, and the entries that lead to them.
#![tactic(auto)]

pub mod entries;
