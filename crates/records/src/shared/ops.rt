ghost use Rattle.std.specs.Prelude.{◌≡◌, ℕ, ◌<◌, ◌≤◌, length, MatchOption};
ghost use Rattle.records.specs.Ids.{id_bytes, empty, no_id};
ghost use Rattle.records.specs.Keys.{hash_id};

use crate::bytes::hash_of;
use crate::shared::ConnectionId;

impl ConnectionId {
    /// The identifier of these bytes, if there are at most 20.
    pub fn new(text: &[u8]) -> Option<ConnectionId>
        ensures { MatchOption result (20 < length text.now) (λ x. id_bytes x ≡ text.now) }
    {
        if text.len() > 20 {
            return None;
        }
        let mut bytes = [0; 20];
        bytes[0..text.len()].copy_from_slice(text);
        Some(ConnectionId {
            len: text.len() as u8,
            bytes,
        })
    }

    /// The identifier without bytes.
    pub fn empty() -> ConnectionId
        ensures { result ≡ no_id }
    {
        ConnectionId {
            len: 0,
            bytes: [0; 20],
        }
    }

    /// How many bytes it has.
    pub fn len(&self) -> usize
        ensures value { result ≡ self.now.len }
        ensures length { result ≡ length (id_bytes self.now) }
    {
        self.len as usize
    }

    /// Whether it has no bytes.
    pub fn is_empty(&self) -> bool
        ensures { result ≡ empty self.now }
    {
        self.len == 0
    }

    /// Its bytes.
    pub fn as_bytes(&self) -> &[u8]
        ensures { result.now ≡ id_bytes self.now }
    {
        &self.bytes[0..self.len as usize]
    }

    /// Its 32-bit hash.
    pub fn hash(&self) -> u32
        ensures { result ≡ hash_id self.now }
    {
        hash_of(&self.bytes)
    }
}

// By hand: a type with invariants has no derived default.
impl Default for ConnectionId {
    ghost is_default = { λ x. x ≡ no_id };

    /// The identifier without bytes.
    fn default() -> ConnectionId {
        ConnectionId::empty()
    }
}
