use records::cause::Cause;
use records::incoming::Attempt;
use supply::answers::Opening;

/// What `handle` answers, unless nothing is done or the datagram is dropped.
pub enum Handled {
    /// The datagram is for the connection of this handle.
    Delivered(u32),
    /// The datagram waits for the attempt in this slot.
    Kept(u32),
    /// A new attempt, and what the door said.
    Opened(Attempt, Opening),
    /// A close is to be sent; it stands in the lent place.
    Closed,
    /// A stateless reset is to be sent: so many bytes of the output.
    // A length and no slice, which would keep the caller's buffer borrowed.
    Reset(usize),
}

/// Why `ignore` does nothing, and the attempt.
pub struct HandedBack {
    pub cause: Cause,
    pub attempt: Attempt,
}
