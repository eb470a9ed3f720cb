ghost use Rattle.std.specs.Prelude.{◌≡◌};
ghost use Rattle.records.specs.Received.{seen};
ghost use Rattle.supply.specs.Meaning.{Supplied, AllLawful, spent};
ghost use Rattle.std.proofs.Common.{rules};

use crate::answers::{HandshakeError, Opening, Unopened};
use crate::supply::{ByteSource, ConnectionIdGenerator, Door, HmacKey};
use records::packet::Received;
use records::shared::ConnectionId;

/// The four suppliers, held by value.
#[derive(Drop)]
pub struct Suppliers<G, B, K, D> {
    pub generator: G,
    pub source: B,
    pub signer: K,
    pub door: D,
}

/// The four suppliers as one, with one meaning.
// It repeats the methods of four traits: with four bounds each contract above would put their meanings together by itself.
pub trait Supplies {
    ghost all: { Self → Supplied };

    /// The next identifier.
    fn generate_cid(&mut self) -> ConnectionId
        ensures drawn { result ≡ (all self.old).generator.draw 0 }
        ensures after { all self.new ≡ spent 1 0 (all self.old) };

    /// Whether the generator may have made an identifier.
    fn validate(&self, cid: &ConnectionId) -> bool
        ensures { result ≡ (all self.now).generator.valid 0 cid.now };

    /// The length of the generator's identifiers.
    fn cid_len(&self) -> usize
        ensures { result ≡ (all self.now).generator.len };

    /// The next byte.
    fn next_byte(&mut self) -> u8
        ensures drawn { result ≡ (all self.old).source 0 }
        ensures after { all self.new ≡ spent 0 1 (all self.old) };

    /// The signature of some bytes.
    fn sign(&self, message: &[u8]) -> [u8; 32]
        ensures { result ≡ (all self.now).signer message.now };

    /// Whether a version is known.
    fn knows(&self, version: u32, dst_cid: &ConnectionId) -> bool
        ensures { result ≡ (all self.now).door.knows version dst_cid.now };

    /// What a first datagram holds.
    fn opens(&self, received: &Received) -> Result<Opening, Unopened>
        ensures { result ≡ (all self.now).door.opens (seen received.now) };

    /// Whether a first datagram is authentic.
    fn proves(&self, received: &Received) -> bool
        ensures { result ≡ (all self.now).door.proves (seen received.now) };

    /// What the handshake says to a first datagram.
    fn greets(
        &self,
        received: &Received,
        handle: u32,
        ids: &[ConnectionId],
    ) -> Result<(), HandshakeError>
        ensures { result ≡ (all self.now).door.greets (seen received.now) handle ids.now };

    ghost lawful: { (s : Self) → AllLawful (all s) };
}

impl<G: ConnectionIdGenerator, B: ByteSource, K: HmacKey, D: Door> Supplies
    for Suppliers<G, B, K, D> {
    ghost all = { λ s. record { generator = G.ConnectionIdGenerator.means s.generator; source = B.ByteSource.feeds s.source; signer = K.HmacKey.signs s.signer; door = D.Door.says s.door } };

    ghost lawful = { Prim.search rules };

    fn generate_cid(&mut self) -> ConnectionId {
        self.generator.generate_cid()
    }

    fn validate(&self, cid: &ConnectionId) -> bool {
        self.generator.validate(cid)
    }

    fn cid_len(&self) -> usize {
        self.generator.cid_len()
    }

    fn next_byte(&mut self) -> u8 {
        self.source.next_byte()
    }

    fn sign(&self, message: &[u8]) -> [u8; 32] {
        self.signer.sign(message)
    }

    fn knows(&self, version: u32, dst_cid: &ConnectionId) -> bool {
        self.door.knows(version, dst_cid)
    }

    fn opens(&self, received: &Received) -> Result<Opening, Unopened> {
        self.door.opens(received)
    }

    fn proves(&self, received: &Received) -> bool {
        self.door.proves(received)
    }

    fn greets(
        &self,
        received: &Received,
        handle: u32,
        ids: &[ConnectionId],
    ) -> Result<(), HandshakeError> {
        self.door.greets(received, handle, ids)
    }
}
