ghost use Rattle.std.specs.Prelude.{◌≡◌};
ghost use Rattle.std.proofs.Common.{rules};
ghost use Rattle.records.specs.Same.{same_id_decides};
ghost use Rattle.records.specs.Keys.{hash_remote, hash_id, hash_pair, hash_sender};

use crate::address::FourTuple;
use crate::bytes::{hash_of, mix};
use crate::shared::ConnectionId;
use crate::token::RemoteToken;
use std::net::SocketAddr;
use table::slot::Key;

/// The 32-bit hash of a peer.
pub fn hash_remote(remote: SocketAddr) -> u32
    ensures { result ≡ hash_remote remote }
{
    match remote {
        SocketAddr::V4(a) => mix(hash_of(&a.ip().octets()), u32::from(a.port())),
        SocketAddr::V6(a) => mix(hash_of(&a.ip().octets()), u32::from(a.port())),
    }
}

impl Key for ConnectionId {
    ghost code = { hash_id };

    ghost exact = { λ a b. (same_id_decides a b).0 };

    fn hash(self) -> u32 {
        ConnectionId::hash(&self)
    }
}

impl Key for FourTuple {
    ghost code = { hash_pair };

    ghost exact = { Prim.search rules };

    fn hash(self) -> u32 {
        hash_remote(self.remote)
    }
}

impl Key for RemoteToken {
    ghost code = { hash_sender };

    ghost exact = { Prim.search rules };

    fn hash(self) -> u32 {
        hash_of(&self.token.bytes)
    }
}
