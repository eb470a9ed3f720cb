//! The records that the endpoint's calls take and give.
#![tactic(auto)]

pub mod address;
pub mod bytes;
pub mod cause;
pub mod config;
pub mod incoming;
pub mod keys;
pub mod packet;
pub mod shared;
pub mod token;
