ghost use Rattle.std.specs.Prelude.{◌≡◌, ℕ, ◌+◌, true, ◌||◌, leb, length, nat_le, nat_lt};
ghost use Rattle.places.specs.Held.{width};
ghost use Rattle.model.specs.Endpoint.{attempt_bytes, waiting_total, places_used, exhausted, held_below};
ghost use Rattle.endpoint.specs.State.{state_in};

use crate::endpoint::Ready;
use crate::limits::{cids_exhausted, sum_exceeds};

impl<'a> Ready<'a> {
    /// Whether an attempt's bytes, or those of all attempts, would pass their limit with `n` more.
    pub(crate) fn too_large(&self, slot: u32, n: u64) -> bool
        ensures { result ≡ (nat_lt self.now.settings.incoming_buffer_size (attempt_bytes (state_in self.now).waiting slot + n) || nat_lt self.now.settings.incoming_buffer_size_total (waiting_total (state_in self.now).waiting + n)) }
    {
        sum_exceeds(
            self.places.bytes_of(slot),
            n,
            self.settings.incoming_buffer_size,
        ) || sum_exceeds(
            self.places.total(),
            n,
            self.settings.incoming_buffer_size_total,
        )
    }

    /// Whether no place is free for a datagram.
    pub(crate) fn no_place(&self) -> bool
        ensures { result ≡ nat_le (width self.now.places) (places_used (state_in self.now).waiting) }
    {
        !self.places.has_room()
    }

    /// Whether identifiers of length `len` are exhausted, or as many attempts wait as may.
    pub(crate) fn saturated(&self, len: usize) -> bool
        ensures { result ≡ (exhausted len (held_below (state_in self.now).conns 128) || leb self.now.settings.max_incoming (length (state_in self.now).waiting)) }
    {
        cids_exhausted(len, self.connections.held())
            || 64 - self.slots.used >= self.settings.max_incoming as usize
    }
}
