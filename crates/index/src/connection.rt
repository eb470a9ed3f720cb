ghost use Rattle.std.specs.Prelude.{◌≡◌, ◌≤◌, length};

use records::address::FourTuple;
use records::shared::ConnectionId;
use records::token::RemoteToken;

/// An identifier that a connection holds, and its sequence.
#[derive(Clone, Copy, Debug, Default)]
pub struct Held {
    pub sequence: u32,
    pub id: ConnectionId,
}

/// What the endpoint knows of a connection while it lives.
#[derive(Clone, Copy)]
pub struct ConnectionMeta {
    /// The identifier that the client's first datagram bore.
    pub init_cid: ConnectionId,
    /// How many identifiers it was issued.
    pub cids_issued: u32,
    /// How many of `loc_cids`, from the front, it holds.
    // A count beside an array: the kit's `ArrayVec` is not `Copy`, as a place that a host fills is.
    pub held: usize,
    pub loc_cids: [Held; 8],
    pub addresses: FourTuple,
    pub reset_token: Option<RemoteToken>,
    ghost few: { held ≤ 8 },
    ghost wide: { length loc_cids ≡ 8 },
}

/// The connections by handle; a place without one is `None`.
// A handle is a number and no `Box`: there is no heap.
#[derive(Drop)]
pub struct Connections<'a> {
    pub items: &'a mut [Option<ConnectionMeta>],
}
