use records::shared::ConnectionId;

/// What a door says of a datagram that it opens.
#[derive(Clone, Copy, Debug)]
pub struct Opening {
    /// Whether the client's address is validated.
    pub validated: bool,
    /// The identifier that the client chose first.
    pub original: ConnectionId,
    /// The identifier of the Retry packet that the client answers, if there was one.
    pub retry: Option<ConnectionId>,
}

/// Why a door does not open a datagram.
#[derive(Clone, Copy, Debug, PartialEq, Eq)]
pub enum Unopened {
    Closed,
    ReservedBits,
    BadToken,
}

/// Why the handshake fails with a first datagram.
#[derive(Clone, Copy, Debug, PartialEq, Eq)]
pub enum HandshakeError {
    TransportError(u64),
    Other,
}
