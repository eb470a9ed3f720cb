ghost use Rattle.std.specs.Prelude.{◌≡◌};
ghost use Rattle.places.specs.Entries.{place_of, place_weight};

use records::packet::Kept;

/// A waiting datagram: whose it is, and the block that holds its bytes. A free place names a block too.
#[derive(Clone, Copy, Default)]
pub struct Place {
    /// The slot of its attempt.
    pub slot: u32,
    /// Whether it is the one that opened the attempt.
    pub first: bool,
    // A number and no borrow: places and blocks are both lent memory.
    pub block: usize,
    pub kept: Kept,
}

impl Place {
    /// Whether it is of the attempt in a slot.
    pub(crate) fn is_of(&self, slot: u32) -> bool
        ensures { result ≡ place_of slot self.now }
    {
        self.slot == slot
    }

    /// Its bytes that count against the limits: those of a first datagram do not.
    pub fn weight(&self) -> u64
        ensures { result ≡ place_weight self.now }
    {
        if self.first { 0 } else { self.kept.len as u64 }
    }
}

/// How many records were written, and how many bytes.
// Counts and no slices: slices would keep the caller's buffers borrowed.
#[derive(Clone, Copy)]
pub struct Written {
    pub count: usize,
    pub bytes: usize,
}
