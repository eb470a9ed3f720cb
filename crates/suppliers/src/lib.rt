//! Suppliers that an endpoint can be given: a list of identifiers, recorded bytes, a signer by exclusive or, and a door of rows.
#![tactic(auto)]

pub mod list;
pub mod recorded;
pub mod rows;
pub mod xor;
