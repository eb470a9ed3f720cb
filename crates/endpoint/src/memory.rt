use index::connection::ConnectionMeta;
use index::target::RouteDatagramTo;
use places::record::Place;
use records::address::FourTuple;
use records::shared::ConnectionId;
use records::token::RemoteToken;
use table::slot::Slot;

/// The memory that an endpoint is given.
#[derive(Drop)]
pub struct Memory<'a> {
    /// A place for each datagram that may wait, W in all.
    pub places: &'a mut [Place],
    /// A block for the bytes of each.
    pub blocks: &'a mut [[u8; 1500]],
    /// Places for 128 connections.
    pub connections: &'a mut [Option<ConnectionMeta>],
    /// 128 free handles.
    pub handles: &'a mut [u32],
    /// 64 free slots.
    pub slots: &'a mut [u32],
    /// More than 192 places of a table.
    pub connection_ids_initial: &'a mut [Slot<ConnectionId, RouteDatagramTo>],
    /// More than 1,024 places of a table.
    pub connection_ids: &'a mut [Slot<ConnectionId, u32>],
    /// More than 128 places of a table.
    pub incoming_connection_remotes: &'a mut [Slot<FourTuple, u32>],
    /// More than 128 places of a table.
    pub connection_reset_tokens: &'a mut [Slot<RemoteToken, u32>],
}
