//! What an endpoint draws from and asks: a generator of identifiers, a byte source, a signer and a door.
#![tactic(auto)]

pub mod answers;
pub mod suppliers;
pub mod supply;
