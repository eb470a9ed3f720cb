//! Stateless resets: what is drawn for one, and its bytes.
#![tactic(auto)]

pub mod draws;
pub mod reset;
