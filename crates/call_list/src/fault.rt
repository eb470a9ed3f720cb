use crate::form::{Field, Form, Later};
use std::alloc::AllocError;
use std::fmt::{Debug, Display};
use thiserror::Error;

/// What is wrong with a line of a call list.
#[derive(Clone, Copy, Debug, PartialEq, Eq, Error)]
pub enum Trouble {
    /// The line is outside the form: this was expected of it.
    #[error("expected {0}")]
    Line(Form),
    /// One of its words is outside the form: this was expected of that.
    #[error("expected {0}")]
    Word(Field),
    /// It has a word of the format that is not there yet.
    #[error("{0} is not there yet")]
    NotYet(Later),
}

/// A line of a call list that is outside the form, or not there yet.
#[derive(Clone, Copy, Debug, PartialEq, Eq, Error)]
#[error("line {line}: {trouble}")]
pub struct Fault {
    /// The line's number, from 1: every line of the text counts.
    pub line: usize,
    pub trouble: Trouble,
}

/// Why a call list, or a line of one, is not read.
#[derive(Clone, Copy, Debug, Error)]
#[error_bound(T: Debug + Display)]
pub enum Failure<T = Fault> {
    #[error("no memory")]
    Memory(#[from(alloc)] AllocError),
    /// It is refused by cause 2.
    #[error("an identifier of the set-up has more than 20 bytes")]
    SetUp,
    /// The list's fault is that of a line of its set-up.
    #[error(transparent)]
    Fault(T),
}
