//! Where a datagram goes: the connections, and the four tables that lead to them and to waiting attempts.
#![tactic(auto)]

pub mod connection;
pub mod holders;
pub mod index;
pub mod initial;
pub mod route;
pub mod target;
