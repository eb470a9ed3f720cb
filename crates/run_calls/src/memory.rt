use endpoint::memory::Memory;
use index::connection::ConnectionMeta;
use index::target::RouteDatagramTo;
use places::record::Place;
use records::address::FourTuple;
use records::shared::ConnectionId;
use records::token::RemoteToken;
use std::alloc::{AllocError, Global};
use table::slot::Slot;

/// The memory that is lent to an endpoint.
// It mirrors `Memory` field by field, since an endpoint has no heap, and is lent each slice.
#[derive(Drop)]
pub struct Storage {
    places: Vec<Place>,
    blocks: Vec<[u8; 1500]>,
    connections: Vec<Option<ConnectionMeta>>,
    handles: Vec<u32>,
    slots: Vec<u32>,
    connection_ids_initial: Vec<Slot<ConnectionId, RouteDatagramTo>>,
    connection_ids: Vec<Slot<ConnectionId, u32>>,
    incoming_connection_remotes: Vec<Slot<FourTuple, u32>>,
    connection_reset_tokens: Vec<Slot<RemoteToken, u32>>,
}

impl Storage {
    /// Memory for an endpoint with so many places for datagrams.
    pub fn new(heap: Global, places: usize) -> Result<Storage, AllocError> {
        Ok(Storage {
            places: vec![in heap; Place::default(); places]?,
            blocks: vec![in heap; [0; 1500]; places]?,
            connections: vec![in heap; None; 128]?,
            handles: vec![in heap; 0; 128]?,
            slots: vec![in heap; 0; 64]?,
            connection_ids_initial: vec![in heap; Slot::Empty; 256]?,
            connection_ids: vec![in heap; Slot::Empty; 2048]?,
            incoming_connection_remotes: vec![in heap; Slot::Empty; 256]?,
            connection_reset_tokens: vec![in heap; Slot::Empty; 256]?,
        })
    }

    /// The memory, lent.
    pub fn lend(&mut self) -> Memory<'_> {
        Memory {
            places: self.places.as_mut_slice(),
            blocks: self.blocks.as_mut_slice(),
            connections: self.connections.as_mut_slice(),
            handles: self.handles.as_mut_slice(),
            slots: self.slots.as_mut_slice(),
            connection_ids_initial: self.connection_ids_initial.as_mut_slice(),
            connection_ids: self.connection_ids.as_mut_slice(),
            incoming_connection_remotes: self.incoming_connection_remotes.as_mut_slice(),
            connection_reset_tokens: self.connection_reset_tokens.as_mut_slice(),
        }
    }
}
