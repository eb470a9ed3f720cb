ghost use Rattle.std.specs.Prelude.{◌≡◌, ℕ, ◌≤◌, true, List, length, Some};
ghost use Rattle.records.specs.declared.packet.Close.{Close as CloseRecord};
ghost use Rattle.records.specs.Received.{seen};
ghost use Rattle.supply.specs.Meaning.{Supplied};
ghost use Rattle.model.specs.Endpoint.{to_attempt};
ghost use Rattle.model.specs.Calls as model;
ghost use Rattle.endpoint.specs.State.{state_in, view_of, config_of};
ghost use Rattle.endpoint.specs.Answers.{Answered};

use crate::endpoint::Ready;
use crate::handled::Handled;
use records::cause::Cause;
use records::packet::Received;

impl<'a> Ready<'a> {
    /// Keeps a datagram for the waiting attempt that its Initial entry names, or drops it for want of room.
    pub(crate) fn keep(&mut self, received: &Received, slot: u32) -> Result<Handled, Cause>
        requires short { length received.now.bytes.now ≤ 1500 }
        requires entry { (state_in self.old).initial received.now.datagram.now.dst_cid ≡ Some (to_attempt slot) }
        ensures { (u : Supplied) (out : List ℕ) (k : CloseRecord) → Answered (view_of self.old) (view_of self.new) u u out out k k (seen received.now) result (model.keep (config_of (view_of self.old) u) (state_in self.old) (seen received.now) slot) }
    {
        if self.too_large(slot, received.bytes.len() as u64) {
            return Err(Cause::BufferFull);
        }
        if self.no_place() {
            return Err(Cause::NoPlace);
        }
        self.places.keep(slot, false, received);
        Ok(Handled::Kept(slot))
    }
}
