use records::cause::Cause;
use records::packet::Close;
use supply::answers::Opening;

/// The answer to one call of a list; the bytes of a reset stand in the call's own block of output.
// One enum and no Result: a list keeps and prints all answers alike, and nothing passes a refusal on.
#[derive(Clone, Copy)]
pub enum Answer {
    Refused(Cause),
    Delivered(u32),
    Kept(u32),
    /// A new attempt: its slot, and what the door said.
    Opened(u32, Opening),
    Closed(Close),
    /// A reset of so many bytes.
    Reset(usize),
    Ignored,
    /// The attempt is not in the host's hands: nothing was called.
    Void,
}
