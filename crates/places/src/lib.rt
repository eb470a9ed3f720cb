//! The waiting datagrams, their bytes, and the free numbers, in lent memory.
#![tactic(auto)]

pub mod free;
pub mod ops;
pub mod places;
pub mod record;
pub mod scan;
pub mod stack;
