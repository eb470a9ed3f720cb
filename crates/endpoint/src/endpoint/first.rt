ghost use Rattle.std.specs.Prelude.{◌≡◌, ℕ, ◌≤◌, true, List, length, None};
ghost use Rattle.records.specs.Received.{seen};
ghost use Rattle.supply.specs.Meaning.{spent};
ghost use Rattle.model.specs.Endpoint.{first_cause};
ghost use Rattle.model.specs.Calls.{first_causes, first_packet, close_to};
ghost use Rattle.endpoint.specs.State.{state_in, view_of, config_of, supply_of};
ghost use Rattle.endpoint.specs.Answers.{Answered, cause_in};

use crate::endpoint::Ready;
use crate::handled::Handled;
use crate::limits::bad_length;
use records::cause::Cause;
use records::packet::{Close, Received};
use supply::answers::Unopened;
use supply::suppliers::Supplies;

/// PROTOCOL_VIOLATION.
const PROTOCOL_VIOLATION: u64 = 0x0a;

/// INVALID_TOKEN.
const INVALID_TOKEN: u64 = 0x0b;

/// Puts a close to a datagram's sender into the lent place; its source is a drawn identifier that is recorded nowhere.
fn initial_close<S: Supplies>(supplies: &mut S, code: u64, received: &Received, close: &mut Close)
    ensures close { close.new ≡ close_to (supply_of (S.all supplies.old)) 0 code (seen received.now) }
    ensures after { S.all supplies.new ≡ spent 1 0 (S.all supplies.old) }
{
    let src_cid = supplies.generate_cid();
    *close = Close {
        code,
        version: received.datagram.version,
        addresses: received.datagram.addresses,
        dst_cid: received.datagram.src_cid,
        src_cid,
    };
}

impl<'a> Ready<'a> {
    /// Whether an unrouted Initial is looked into, or why it is dropped before.
    fn check_first<S: Supplies>(&self, supplies: &S, received: &Received) -> Result<(), Cause>
        ensures { cause_in result ≡ first_cause (first_causes (config_of (view_of self.now) (S.all supplies.now)) (state_in self.now) (seen received.now)) }
    {
        if received.bytes.len() < 1200 {
            return Err(Cause::ShortInitial);
        }
        if self.saturated(supplies.cid_len()) {
            return Err(Cause::Saturated);
        }
        if self.no_place() {
            return Err(Cause::NoPlace);
        }
        if !supplies.knows(received.datagram.version, &received.datagram.dst_cid) {
            return Err(Cause::UnknownVersion);
        }
        Ok(())
    }

    /// What comes of an Initial that no entry routes.
    pub(crate) fn handle_first_packet<S: Supplies>(
        &mut self,
        supplies: &mut S,
        received: &Received,
        close: &mut Close,
    ) -> Result<Handled, Cause>
        // A clause here, in `keep`, `open` and `stateless_reset`, and no invariant of `Received`: `handle` is given longer ones too, and refuses them.
        requires short { length received.now.bytes.now ≤ 1500 }
        requires absent { (state_in self.old).initial received.now.datagram.now.dst_cid ≡ None }
        ensures { (out : List ℕ) → Answered (view_of self.old) (view_of self.new) (S.all supplies.old) (S.all supplies.new) out out close.old close.new (seen received.now) result (first_packet (config_of (view_of self.old) (S.all supplies.old)) (supply_of (S.all supplies.old)) (state_in self.old) (seen received.now)) }
    {
        self.check_first(supplies, received)?;
        if bad_length(
            received.datagram.dst_cid.len(),
            supplies.cid_len(),
            received.datagram.token_mark,
        ) {
            initial_close(supplies, PROTOCOL_VIOLATION, received, close);
            return Ok(Handled::Closed);
        }
        match supplies.opens(received) {
            Ok(opening) => Ok(self.open(received, opening)),
            Err(Unopened::Closed) => Err(Cause::Undecodable),
            Err(Unopened::ReservedBits) => Err(Cause::ReservedBits),
            Err(Unopened::BadToken) => {
                initial_close(supplies, INVALID_TOKEN, received, close);
                Ok(Handled::Closed)
            }
        }
    }
}
