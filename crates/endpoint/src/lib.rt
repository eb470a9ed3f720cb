//! The server endpoint: what it does with datagrams, attempts and the memory that it is given.
#![tactic(auto)]

pub mod endpoint;
pub mod handled;
pub mod input;
pub mod limits;
pub mod memory;
