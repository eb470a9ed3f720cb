ghost use Rattle.std.specs.Prelude.{◌≡◌, Bool, List, ℕ, ◌<◌, length};
ghost use Rattle.records.specs.Received.{seen};
ghost use Rattle.supply.specs.Meaning.{Generator, Lawful, DoorAnswers, shifted, later};

use crate::answers::{HandshakeError, Opening, Unopened};
use records::packet::Received;
use records::shared::ConnectionId;

/// A generator of connection identifiers, all of one length.
pub trait ConnectionIdGenerator {
    ghost means: { Self → Generator };

    /// The next identifier.
    fn generate_cid(&mut self) -> ConnectionId
        ensures drawn { result ≡ (means self.old).draw 0 }
        ensures after { means self.new ≡ shifted 1 (means self.old) };

    /// Whether this generator may have made an identifier.
    fn validate(&self, cid: &ConnectionId) -> bool
        ensures { result ≡ (means self.now).valid 0 cid.now };

    /// The length of its identifiers.
    fn cid_len(&self) -> usize
        ensures { result ≡ (means self.now).len };

    ghost lawful: { (s : Self) → Lawful (means s) };
}

/// A source of bytes.
pub trait ByteSource {
    ghost feeds: { Self → ℕ → ℕ };

    /// The next byte.
    fn next_byte(&mut self) -> u8
        ensures drawn { result ≡ feeds self.old 0 }
        ensures after { feeds self.new ≡ later 1 (feeds self.old) };

    ghost bytes: { (s : Self) (i : ℕ) → feeds s i < 256 };
}

/// A key that signs bytes.
pub trait HmacKey {
    ghost signs: { Self → List ℕ → List ℕ };

    /// The signature of some bytes.
    fn sign(&self, message: &[u8]) -> [u8; 32]
        ensures { result ≡ signs self.now message.now };

    ghost wide: { (s : Self) (message : List ℕ) → length (signs s message) ≡ 32 };
}

/// What judges datagrams and first packets: decoder, crypto and handshake of the host.
pub trait Door {
    ghost says: { Self → DoorAnswers };

    /// Whether a version is known.
    fn knows(&self, version: u32, dst_cid: &ConnectionId) -> bool
        ensures { result ≡ (says self.now).knows version dst_cid.now };

    /// What a first datagram holds.
    fn opens(&self, received: &Received) -> Result<Opening, Unopened>
        ensures { result ≡ (says self.now).opens (seen received.now) };

    /// Whether a first datagram is authentic.
    fn proves(&self, received: &Received) -> bool
        ensures { result ≡ (says self.now).proves (seen received.now) };

    /// What the handshake says to a first datagram.
    fn greets(
        &self,
        received: &Received,
        handle: u32,
        ids: &[ConnectionId],
    ) -> Result<(), HandshakeError>
        ensures { result ≡ (says self.now).greets (seen received.now) handle ids.now };
}
