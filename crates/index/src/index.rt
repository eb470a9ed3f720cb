use crate::target::RouteDatagramTo;
use records::address::FourTuple;
use records::shared::ConnectionId;
use records::token::RemoteToken;
use table::table::Table;

/// Which attempt or connection a datagram is for.
#[derive(Drop)]
pub struct ConnectionIndex<'a> {
    /// Under the identifiers that clients chose, waiting attempts and then their connections.
    pub connection_ids_initial: Table<'a, ConnectionId, RouteDatagramTo>,
    /// The holders of the identifiers that were issued.
    pub connection_ids: Table<'a, ConnectionId, u32>,
    /// The connections by address pair, where identifiers are empty.
    pub incoming_connection_remotes: Table<'a, FourTuple, u32>,
    /// The connections by their peers' reset tokens.
    pub connection_reset_tokens: Table<'a, RemoteToken, u32>,
}
