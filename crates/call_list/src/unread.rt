use crate::fault::{Failure, Fault, Trouble};
use crate::form::{Field, Form, Later};

/// Why a line is not read, whatever its number.
pub type Unread = Failure<Trouble>;

impl Unread {
    /// Why the line of this number is not read.
    pub(crate) fn at(self, line: usize) -> Failure {
        match self {
            Failure::Memory(e) => Failure::Memory(e),
            Failure::SetUp => Failure::SetUp,
            Failure::Fault(trouble) => Failure::Fault(Fault { line, trouble }),
        }
    }
}

/// A line that is outside this form.
// Three names and no `From`: the call says whether the line or the word is wrong, or the time for it.
pub fn no_line(form: Form) -> Unread {
    Failure::Fault(Trouble::Line(form))
}

/// A word that is outside this form.
pub fn no_word(field: Field) -> Unread {
    Failure::Fault(Trouble::Word(field))
}

/// A word that is not there yet.
pub fn not_yet(word: Later) -> Unread {
    Failure::Fault(Trouble::NotYet(word))
}
