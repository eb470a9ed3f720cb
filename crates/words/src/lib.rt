//! The words of call lists: bytes, numbers and filled datagrams.
#![tactic(auto)]

pub mod words;
