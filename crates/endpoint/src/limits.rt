ghost use Rattle.std.specs.Prelude.{◌≡◌, ℕ, ◌+◌, ◌^◌, ◌≤◌, not, ◌&&◌, ◌||◌, ltb, nat_eq, nat_lt};
ghost use Rattle.model.specs.Endpoint.{exhausted};
ghost use Rattle.model.specs.Calls.{too_soon};

/// Whether `a + b` is above a limit, the sum being exact.
pub fn sum_exceeds(a: u64, b: u64, limit: u64) -> bool
    ensures { result ≡ nat_lt limit (a + b) }
{
    b > limit || a > limit - b
}

/// Whether a reset at `time` comes too soon after the last one.
pub fn reset_too_soon(last: Option<u64>, interval: u64, time: u64) -> bool
    ensures { result ≡ too_soon last interval time }
{
    last.is_some_and(|t| sum_exceeds(t, interval, time))
}

/// How many identifiers there are of at most 4 bytes.
fn space(len: usize) -> usize
    requires { len ≤ 4 }
    ensures { result ≡ 256 ^ len }
{
    256usize.pow(len as u32)
}

/// Whether fewer than a quarter of the identifiers of a length is left, at lengths of 1 to 4.
pub fn cids_exhausted(len: usize, held: usize) -> bool
    ensures { result ≡ exhausted len held }
{
    if !(1..=4).contains(&len) {
        return false;
    }
    let all = space(len);
    all.saturating_sub(held) < all / 4
}

/// Whether a first destination identifier is too short: below 8 bytes it needs the endpoint's own length and a token.
pub fn bad_length(dst_len: usize, len: usize, token_mark: bool) -> bool
    ensures { result ≡ (ltb dst_len 8 && (not (nat_eq dst_len len) || not token_mark)) }
{
    dst_len < 8 && (dst_len != len || !token_mark)
}
