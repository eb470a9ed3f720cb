ghost use Rattle.std.specs.Prelude.{◌≡◌, ℕ, not, ◌&&◌, ◌||◌, nat_eq, nat_le};
ghost use Rattle.records.specs.Received.{seen, is_initial, is_short, ecn_fits, within_records, well_formed};

use records::packet::{Datagram, Received};

fn ecn_fits(ecn: Option<u8>) -> bool
    ensures { result ≡ ecn_fits ecn }
{
    ecn.is_none_or(|mark| mark >= 1 && mark <= 3)
}

fn mark_fits(datagram: &Datagram) -> bool
    ensures { result ≡ (not datagram.now.token_mark || is_initial datagram.now.kind) }
{
    !datagram.token_mark || datagram.kind.is_initial()
}

fn length_fits(datagram: &Datagram, len: usize) -> bool
    ensures { result ≡ (not (is_short datagram.now.kind) || nat_eq datagram.now.dst_cid.len len) }
{
    !datagram.kind.is_short() || datagram.dst_cid.len() == len
}

fn within_records(received: &Received) -> bool
    ensures { result ≡ within_records (seen received.now) }
{
    let datagram = received.datagram;
    let n = received.bytes.len();
    n >= 1
        && n <= 1500
        && datagram.first_len >= 1
        && datagram.first_len <= n
        && mark_fits(datagram)
        && ecn_fits(datagram.ecn)
}

/// Whether `handle` can take a datagram, at identifiers of length `len` and with an output of `room` bytes.
pub fn fits_input(received: &Received, len: usize, room: usize) -> bool
    ensures { result ≡ (well_formed len (seen received.now) && nat_le 1500 room) }
{
    within_records(received) && length_fits(received.datagram, len) && room >= 1500
}
