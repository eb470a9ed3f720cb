ghost use Rattle.std.specs.Prelude.{◌≡◌, true, false};
ghost use Rattle.supply.specs.Meaning.{Supplied};
ghost use Rattle.model.specs.Records.{refused};
ghost use Rattle.model.specs.Calls as model;
ghost use Rattle.endpoint.specs.State.{state_in, view_of, view, config_of};
ghost use Rattle.endpoint.specs.Ignoring.{first_brought, Ignored};

use crate::endpoint::{Endpoint, Ready};
use crate::handled::HandedBack;
use index::initial::set_initial;
use index::target::InitialEvent;
use records::cause::Cause;
use records::incoming::Attempt;
use records::packet::Datagram;

impl<'a> Ready<'a> {
    /// The first datagram of the waiting attempt that the host brings, if it is one of this endpoint's.
    fn brought(&self, attempt: &Attempt) -> Option<Datagram>
        ensures { result ≡ first_brought self.now attempt.now }
    {
        if attempt.number() != self.number {
            return None;
        }
        self.places.find(attempt.slot())
    }

    // Lets an attempt go without an answer to its client.
    fn ignore(&mut self, attempt: Attempt) -> Result<(), HandedBack>
        ensures { (u : Supplied) → Ignored (view_of self.old) (view_of self.new) attempt result (model.ignore (config_of (view_of self.old) u) (state_in self.old) attempt) }
    {
        match self.brought(&attempt) {
            None => Err(HandedBack {
                cause: Cause::UnknownAttempt,
                attempt,
            }),
            Some(first) => {
                let slot = attempt.spend();
                self.places.spend(slot);
                set_initial(
                    &mut self.index.connection_ids_initial,
                    first.dst_cid,
                    InitialEvent::Failed,
                );
                self.slots.push(slot);
                Ok(())
            }
        }
    }
}

impl<'a> Endpoint<'a> {
    /// Lets an attempt go without an answer to its client. Refused, it hands the attempt back.
    pub fn ignore(&mut self, attempt: Attempt) -> Result<(), HandedBack>
        ensures refused { (view self.old).ready ≡ false → Ignored (view self.old) (view self.new) attempt result (model.gives (refused 2) (view self.old).state) }
        ensures ignored { (view self.old).ready ≡ true → (u : Supplied) → Ignored (view self.old) (view self.new) attempt result (model.ignore (config_of (view self.old) u) (view self.old).state attempt) }
    {
        match &mut self.ready {
            Ok(ready) => ready.ignore(attempt),
            Err(_) => Err(HandedBack {
                cause: Cause::SetUp,
                attempt,
            }),
        }
    }
}
