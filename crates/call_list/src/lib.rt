//! Lists of calls as text: a set-up and its calls are read, and answers are written.
#![tactic(auto)]

mod address;
pub mod answer;
mod call;
pub mod fault;
mod fields;
pub mod form;
pub mod list;
pub mod set_up;
mod set_up_lines;
mod shown;
mod unread;
