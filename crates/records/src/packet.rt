ghost use Rattle.std.specs.Prelude.{◌≡◌};
ghost use Rattle.records.specs.Received.{is_initial, is_short, is_early};

use crate::address::FourTuple;
use crate::shared::ConnectionId;

/// The kind of a datagram's first packet.
#[derive(Clone, Copy, Debug, Default, PartialEq, Eq)]
pub enum Kind {
    #[default]
    Initial,
    Handshake,
    ZeroRtt,
    Short,
    Retry,
    VersionNegotiate,
}

impl Kind {
    /// Whether a packet is an Initial.
    pub fn is_initial(self) -> bool
        ensures { result ≡ is_initial self }
    {
        self == Kind::Initial
    }

    /// Whether a packet has a short header.
    pub fn is_short(self) -> bool
        ensures { result ≡ is_short self }
    {
        self == Kind::Short
    }

    /// Whether a packet bears an identifier that the client chose.
    pub fn is_early(self) -> bool
        ensures { result ≡ is_early self }
    {
        matches!(self, Kind::Initial | Kind::ZeroRtt)
    }
}

/// A received datagram, its bytes apart.
#[derive(Clone, Copy, Debug, Default, PartialEq, Eq)]
pub struct Datagram {
    /// When it came, in milliseconds.
    pub time: u64,
    pub addresses: FourTuple,
    /// The ECN mark, 1 to 3.
    // A number and no enum: a wrong mark is refused by 1, so that it can be brought.
    pub ecn: Option<u8>,
    /// How many of its bytes its first packet has.
    pub first_len: usize,
    pub kind: Kind,
    pub dst_cid: ConnectionId,
    pub src_cid: ConnectionId,
    pub version: u32,
    /// Whether an Initial bears a token.
    // A flag beside the kind: a datagram may come with it and be no Initial, and is then refused.
    pub token_mark: bool,
}

/// A received datagram with its bytes.
#[derive(Clone, Copy, Debug)]
pub struct Received<'a> {
    pub datagram: &'a Datagram,
    pub bytes: &'a [u8],
}

/// A datagram that waits, its bytes apart, and how many it has.
#[derive(Clone, Copy, Debug, Default, PartialEq, Eq)]
pub struct Kept {
    pub datagram: Datagram,
    // A length and no slice: the bytes lie in a block of lent memory.
    pub len: usize,
}

/// A close to be sent: the host encodes it.
#[derive(Clone, Copy, Debug, Default, PartialEq, Eq)]
pub struct Close {
    // A number and no enum: the handshake may give any code of 64 bits.
    pub code: u64,
    pub version: u32,
    pub addresses: FourTuple,
    pub dst_cid: ConnectionId,
    pub src_cid: ConnectionId,
}
