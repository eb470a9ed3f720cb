ghost use Rattle.std.specs.Prelude.{◌≡◌, ℕ, ◌+◌, ◌≤◌, length};
ghost use Rattle.supply.specs.Meaning.{spent, token_of};
ghost use Rattle.model.specs.Calls.{marked};
ghost use Rattle.resets.specs.Bytes.{over, picked, padding, reset_bytes};

use crate::draws::{draw_bytes, draw_number};
use records::shared::ConnectionId;
use supply::suppliers::Supplies;

/// How long a token is.
const RESET_TOKEN_SIZE: usize = 16;

/// A reset with this much padding cannot be told from other packets.
const IDEAL_MIN_PADDING_LEN: usize = 25;

/// How long the padding of a reset for `n` bytes is: one byte less than they leave room for, or a length by lot.
pub fn padding_len<S: Supplies>(supplies: &mut S, n: usize) -> usize
    requires least { 22 ≤ n }
    requires most { n ≤ 1500 }
    ensures value { result ≡ padding (S.all supplies.old).source n }
    ensures after { S.all supplies.new ≡ spent 0 (picked n) (S.all supplies.old) }
    ensures low { 5 ≤ result }
    ensures high { result + 17 ≤ n }
{
    let most = n - RESET_TOKEN_SIZE - 1;
    if most <= IDEAL_MIN_PADDING_LEN + 1 {
        return most;
    }
    let span = most - IDEAL_MIN_PADDING_LEN;
    IDEAL_MIN_PADDING_LEN + (draw_number(supplies) % span as u64) as usize
}

/// Marks a first byte as a packet's with a short header.
fn mark(out: &mut [u8])
    ensures { out.new ≡ marked out.old }
{
    if let Some(first) = out.first_mut() {
        *first = 0x40 + *first / 4;
    }
}

/// Writes the first 16 bytes of an identifier's signature to the front of `out`.
fn write_token<S: Supplies>(supplies: &S, cid: &ConnectionId, out: &mut [u8])
    requires { 16 ≤ length out.old }
    ensures { out.new ≡ over (token_of (S.all supplies.now).signer cid.now) out.old }
{
    let signature = supplies.sign(cid.as_bytes());
    out[..RESET_TOKEN_SIZE].copy_from_slice(&signature[..RESET_TOKEN_SIZE]);
}

/// Writes a stateless reset for an identifier that came in `n` bytes, and says how long it is.
pub fn write_reset<S: Supplies>(
    supplies: &mut S,
    cid: &ConnectionId,
    n: usize,
    out: &mut [u8],
) -> usize
    requires least { 22 ≤ n }
    requires most { n ≤ 1500 }
    requires room { 1500 ≤ length out.old }
    ensures value { result ≡ padding (S.all supplies.old).source n + 16 }
    ensures bytes { out.new ≡ over (reset_bytes (S.all supplies.old) cid.now n) out.old }
    ensures after { S.all supplies.new ≡ spent 0 (picked n + padding (S.all supplies.old).source n) (S.all supplies.old) }
    ensures high { result + 1 ≤ n }
{
    let padding = padding_len(supplies, n);
    let (drawn, rest) = out.split_at_mut(padding);
    draw_bytes(supplies, drawn);
    mark(drawn);
    write_token(supplies, cid, rest);
    padding + RESET_TOKEN_SIZE
}
