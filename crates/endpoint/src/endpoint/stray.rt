ghost use Rattle.std.specs.Prelude.{◌≡◌, ℕ, ◌≤◌, List, length};
ghost use Rattle.records.specs.declared.packet.Close.{Close as CloseRecord};
ghost use Rattle.records.specs.Received.{seen};
ghost use Rattle.model.specs.Endpoint.{first_cause};
ghost use Rattle.model.specs.Calls.{stray_causes, stray};
ghost use Rattle.endpoint.specs.State.{state_in, view_of, config_of, supply_of};
ghost use Rattle.endpoint.specs.Answers.{Answered, cause_in};

use crate::endpoint::Ready;
use crate::handled::Handled;
use crate::limits::reset_too_soon;
use records::cause::Cause;
use records::packet::Received;
use resets::reset::write_reset;
use supply::suppliers::Supplies;

impl<'a> Ready<'a> {
    /// Whether a datagram for no connection gets a stateless reset, or why it gets none.
    fn check_stray<S: Supplies>(&self, supplies: &S, received: &Received) -> Result<(), Cause>
        ensures { cause_in result ≡ first_cause (stray_causes (config_of (view_of self.now) (S.all supplies.now)) (supply_of (S.all supplies.now)) (state_in self.now) (seen received.now)) }
    {
        let datagram = received.datagram;
        if !datagram.kind.is_short() {
            return Err(Cause::UnexpectedPacket);
        }
        if !supplies.validate(&datagram.dst_cid) {
            return Err(Cause::InvalidIdentifier);
        }
        if datagram.dst_cid.is_empty() {
            return Err(Cause::NoIdentifier);
        }
        if reset_too_soon(
            self.last_stateless_reset,
            self.settings.min_reset_interval,
            datagram.time,
        ) {
            return Err(Cause::ResetTooSoon);
        }
        if received.bytes.len() < 22 {
            return Err(Cause::TooSmallToReset);
        }
        Ok(())
    }

    /// Answers a datagram for no connection by a stateless reset, or drops it.
    pub(crate) fn stateless_reset<S: Supplies>(
        &mut self,
        supplies: &mut S,
        received: &Received,
        out: &mut [u8],
    ) -> Result<Handled, Cause>
        requires short { length received.now.bytes.now ≤ 1500 }
        requires room { 1500 ≤ length out.old }
        ensures { (k : CloseRecord) → Answered (view_of self.old) (view_of self.new) (S.all supplies.old) (S.all supplies.new) out.old out.new k k (seen received.now) result (stray (config_of (view_of self.old) (S.all supplies.old)) (supply_of (S.all supplies.old)) (state_in self.old) (seen received.now)) }
    {
        self.check_stray(supplies, received)?;
        let n = write_reset(
            supplies,
            &received.datagram.dst_cid,
            received.bytes.len(),
            out,
        );
        self.last_stateless_reset = Some(received.datagram.time);
        Ok(Handled::Reset(n))
    }
}
