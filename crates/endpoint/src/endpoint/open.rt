ghost use Rattle.std.specs.Prelude.{◌≡◌, ℕ, ◌<◌, ◌≤◌, List, length, None, Ok};
ghost use Rattle.records.specs.declared.packet.Close.{Close as CloseRecord};
ghost use Rattle.records.specs.Received.{seen};
ghost use Rattle.supply.specs.Meaning.{Supplied};
ghost use Rattle.places.specs.Held.{width};
ghost use Rattle.model.specs.Records.{opened};
ghost use Rattle.model.specs.Endpoint.{places_used, with_opened};
ghost use Rattle.model.specs.Calls.{gives, next_free};
ghost use Rattle.endpoint.specs.State.{state_in, view_of};
ghost use Rattle.endpoint.specs.Answers.{Answered};

use crate::endpoint::Ready;
use crate::handled::Handled;
use index::initial::set_initial;
use index::target::InitialEvent;
use records::incoming::Attempt;
use records::packet::Received;
use supply::answers::Opening;

impl<'a> Ready<'a> {
    /// Opens an attempt with its first datagram, in the slot freed last.
    pub(crate) fn open(&mut self, received: &Received, opening: Opening) -> Handled
        requires short { length received.now.bytes.now ≤ 1500 }
        requires few { length (state_in self.old).waiting < 64 }
        requires room { places_used (state_in self.old).waiting < width self.old.places }
        requires absent { (state_in self.old).initial received.now.datagram.now.dst_cid ≡ None }
        ensures { (u : Supplied) (out : List ℕ) (k : CloseRecord) → Answered (view_of self.old) (view_of self.new) u u out out k k (seen received.now) (Ok result) (gives (opened (next_free (state_in self.old).free_slots) opening) (with_opened (state_in self.old) (next_free (state_in self.old).free_slots) (seen received.now))) }
    {
        // There is a free slot, as fewer attempts wait than there are slots.
        let slot = self.slots.pop().unwrap();
        self.places.keep(slot, true, received);
        set_initial(
            &mut self.index.connection_ids_initial,
            received.datagram.dst_cid,
            InitialEvent::Arrival(slot),
        );
        Handled::Opened(Attempt::new(self.number, slot), opening)
    }
}
