use records::packet::Datagram;

/// The attempt that a call brings.
#[derive(Clone, Copy)]
pub enum Brought {
    /// The one that the call of this number, from 0, opened.
    Opened(usize),
    /// One of another endpoint: its number and slot.
    Foreign(u32, u32),
}

/// A datagram for `handle`, with its bytes, which it borrows or owns.
#[derive(Clone, Copy, Drop)]
pub struct Arrival<B> {
    pub datagram: Datagram,
    pub bytes: B,
    /// Whether the output that is lent is one byte short.
    pub small: bool,
}

/// One call of a list.
// `A` is an arrival: an enum that held it in a field would get no proof where its bytes are borrowed.
#[derive(Clone, Copy, Drop)]
pub enum Call<A> {
    Handle(A),
    Ignore(Brought),
}

/// A call that borrows its datagram's bytes.
pub type LentCall<'a> = Call<Arrival<&'a [u8]>>;
