ghost use Rattle.std.specs.Prelude.{◌≡◌, ℕ, ◌<◌, ◌≤◌, length, MatchOption};
ghost use Rattle.std.specs.Option.{option_map};
ghost use Rattle.records.specs.Received.{seen, last_16};
ghost use Rattle.model.specs.Endpoint.{route, held_route, initial_route, pair_route, sender_route};
ghost use Rattle.index.specs.Routes.{target_of, index_state};

use crate::index::ConnectionIndex;
use crate::target::RouteDatagramTo;
use records::packet::Received;
use records::token::{RemoteToken, ResetToken};

/// The last 16 bytes, where a stateless reset has its token.
pub fn last_16(bytes: &[u8]) -> ResetToken
    requires { 16 ≤ length bytes.now }
    ensures { result.bytes ≡ last_16 bytes.now }
{
    let bytes = *bytes.last_chunk().unwrap();
    ResetToken { bytes }
}

/// The token at the end, if there are so many bytes.
pub fn trailing_token(bytes: &[u8]) -> Option<ResetToken>
    ensures { MatchOption result (length bytes.now < 16) (λ t. t.bytes ≡ last_16 bytes.now) }
{
    if bytes.len() < 16 {
        return None;
    }
    Some(last_16(bytes))
}

impl<'a> ConnectionIndex<'a> {
    fn by_held(&self, received: &Received) -> Option<RouteDatagramTo>
        ensures { option_map target_of result ≡ held_route (index_state self.now) (seen received.now) }
    {
        let dst_cid = received.datagram.dst_cid;
        if dst_cid.is_empty() {
            return None;
        }
        self.connection_ids
            .get(dst_cid)
            .map(RouteDatagramTo::Connection)
    }

    fn by_initial(&self, received: &Received) -> Option<RouteDatagramTo>
        ensures { option_map target_of result ≡ initial_route (index_state self.now) (seen received.now) }
    {
        if !received.datagram.kind.is_early() {
            return None;
        }
        self.connection_ids_initial.get(received.datagram.dst_cid)
    }

    fn by_pair(&self, received: &Received) -> Option<RouteDatagramTo>
        ensures { option_map target_of result ≡ pair_route (index_state self.now) (seen received.now) }
    {
        if !received.datagram.dst_cid.is_empty() {
            return None;
        }
        self.incoming_connection_remotes
            .get(received.datagram.addresses)
            .map(RouteDatagramTo::Connection)
    }

    fn by_token(&self, received: &Received) -> Option<RouteDatagramTo>
        ensures { option_map target_of result ≡ sender_route (index_state self.now) (seen received.now) }
    {
        let remote = received.datagram.addresses.remote;
        let token = trailing_token(received.bytes)?;
        self.connection_reset_tokens
            .get(RemoteToken { remote, token })
            .map(RouteDatagramTo::Connection)
    }

    /// Where a datagram goes: to the holder of its identifier, by its Initial entry, by its address pair, or by its last 16 bytes.
    pub fn get(&self, received: &Received) -> Option<RouteDatagramTo>
        ensures { option_map target_of result ≡ route (index_state self.now) (seen received.now) }
    {
        // `or_else` is no plainer: each of its closures would need clauses of its own.
        if let Some(to) = self.by_held(received) {
            return Some(to);
        }
        if let Some(to) = self.by_initial(received) {
            return Some(to);
        }
        if let Some(to) = self.by_pair(received) {
            return Some(to);
        }
        self.by_token(received)
    }
}
