ghost use Rattle.std.specs.Prelude.{◌≡◌, ℕ, true, false, length};
ghost use Rattle.std.specs.Option.{option_map};
ghost use Rattle.records.specs.Received.{seen};
ghost use Rattle.supply.specs.Meaning.{token_of};
ghost use Rattle.index.specs.Routes.{target_of};
ghost use Rattle.model.specs.Records.{refused};
ghost use Rattle.model.specs.Endpoint as model_state;
ghost use Rattle.model.specs.Calls as model;
ghost use Rattle.model.specs.Rfc9000.{KeepsToRfc9000};
ghost use Rattle.endpoint.specs.State.{state_in, view_of, view, config_of, supply_of};
ghost use Rattle.endpoint.specs.Answers.{Answered};

use crate::endpoint::{Endpoint, Ready};
use crate::handled::Handled;
use crate::input::fits_input;
use index::target::RouteDatagramTo;
use records::cause::Cause;
use records::packet::{Close, Received};
use supply::suppliers::Supplies;

impl<'a> Ready<'a> {
    // Takes a datagram in.
    fn handle<S: Supplies>(
        &mut self,
        supplies: &mut S,
        received: &Received,
        out: &mut [u8],
        close: &mut Close,
    ) -> Result<Handled, Cause>
        ensures { Answered (view_of self.old) (view_of self.new) (S.all supplies.old) (S.all supplies.new) out.old out.new close.old close.new (seen received.now) result (model.handle (config_of (view_of self.old) (S.all supplies.old)) (supply_of (S.all supplies.old)) (state_in self.old) (seen received.now) (length out.old)) }
    {
        if !fits_input(received, supplies.cid_len(), out.len()) {
            return Err(Cause::Malformed);
        }
        match self.index.get(received) {
            Some(RouteDatagramTo::Connection(handle)) => Ok(Handled::Delivered(handle)),
            Some(RouteDatagramTo::Incoming(slot)) => self.keep(received, slot),
            None => {
                if received.datagram.kind.is_initial() {
                    self.handle_first_packet(supplies, received, close)
                } else {
                    self.stateless_reset(supplies, received, out)
                }
            }
        }
    }
}

impl<'a> Endpoint<'a> {
    /// Takes a datagram in. A reset goes to the front of `out`, which has at least 1,500 bytes; a close goes to `close`.
    pub fn handle<S: Supplies>(
        &mut self,
        supplies: &mut S,
        received: &Received,
        out: &mut [u8],
        close: &mut Close,
    ) -> Result<Handled, Cause>
        ensures refused { (view self.old).ready ≡ false → Answered (view self.old) (view self.new) (S.all supplies.old) (S.all supplies.new) out.old out.new close.old close.new (seen received.now) result (model.gives (refused 2) (view self.old).state) }
        ensures answered { (view self.old).ready ≡ true → Answered (view self.old) (view self.new) (S.all supplies.old) (S.all supplies.new) out.old out.new close.old close.new (seen received.now) result (model.handle (config_of (view self.old) (S.all supplies.old)) (supply_of (S.all supplies.old)) (view self.old).state (seen received.now) (length out.old)) }
        ensures rfc { KeepsToRfc9000 (config_of (view self.old) (S.all supplies.old)) (supply_of (S.all supplies.old)) (token_of (S.all supplies.old).signer) (view self.old).state (seen received.now) (length out.old) }
    {
        match &mut self.ready {
            Ok(ready) => ready.handle(supplies, received, out, close),
            Err(_) => Err(Cause::SetUp),
        }
    }
}
