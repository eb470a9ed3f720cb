ghost use Rattle.std.specs.Prelude.{◌≡◌, ℕ, ◌+◌, ◌-◌, ◌<◌, ◌≤◌, ◌++◌, length, IfOk, vec_len, MatchOption, OnOk, ◌≢◌};
ghost use Rattle.std.specs.Option.{SomeIff};
ghost use Rattle.words.specs.Words.{hex_digit, hex_of, bytes_word, NoneHas, read_on, Decimal, filled};

use std::alloc::{AllocError, Global};

/// The value of a lower-case hexadecimal digit.
fn nibble(c: u8) -> Option<u8>
    ensures { MatchOption result ((d : ℕ) → d < 16 → hex_digit d ≢ c) (λ d. (d < 16) × (hex_digit d ≡ c)) }
{
    match c {
        b'0'..=b'9' => Some(c - b'0'),
        b'a'..=b'f' => Some(c - b'a' + 10),
        _ => None,
    }
}

/// The bytes that hexadecimal digits write, if the text is such.
fn unhex_digits(heap: Global, digits: &[u8]) -> Result<Option<Vec<u8>>, AllocError>
    ensures { IfOk result (λ o. MatchOption o (NoneHas hex_of digits.now) (λ v. hex_of v.items ≡ digits.now)) }
{
    let (pairs, []) = digits.as_chunks::<2>() else {
        return Ok(None);
    };
    let mut bytes = Vec::new(heap);
    // A loop and not `try_collect`, which stops for one kind of reason: no digit is `None`, no memory an error.
    for [high, low] in pairs {
        let Some(high) = nibble(*high) else {
            return Ok(None);
        };
        let Some(low) = nibble(*low) else {
            return Ok(None);
        };
        bytes.push(16 * high + low)?;
    }
    Ok(Some(bytes))
}

/// The bytes of a word: hexadecimal digits, or `-` for no bytes.
pub fn unhex(heap: Global, word: &str) -> Result<Option<Vec<u8>>, AllocError>
    ensures { IfOk result (λ o. MatchOption o (NoneHas bytes_word word.now) (λ v. bytes_word v.items ≡ word.now)) }
{
    if word == "-" {
        return Ok(Some(Vec::new(heap)));
    }
    if word.is_empty() {
        return Ok(None);
    }
    unhex_digits(heap, word.as_bytes())
}

/// The number of a word of decimal digits: leading zeros pass, a sign does not.
pub fn decimal(word: &str) -> Option<u64>
    ensures { SomeIff result (Decimal word.now) (read_on 0 word.now) }
{
    if word.starts_with('+') {
        return None;
    }
    word.parse::<u64>().ok()
}

/// Appends a datagram of `n` bytes: `fill` as often as it takes, then `tail`.
pub fn fill_tail(bytes: &mut Vec<u8>, n: usize, fill: u8, tail: &[u8]) -> Result<(), AllocError>
    ensures grows { vec_len bytes.old ≤ vec_len bytes.new }
    ensures long { OnOk result (vec_len bytes.new ≡ vec_len bytes.old + (n - length tail.now) + length tail.now) }
    ensures filled { OnOk result (bytes.new.items ≡ bytes.old.items ++ filled n fill tail.now) }
{
    let filling = n.saturating_sub(tail.len());
    let filled = bytes.len().checked_add(filling).ok_or(AllocError)?;
    // Room for all of them at once: else a short tail would double what the filling took.
    bytes.reserve(n.max(tail.len()))?;
    bytes.resize(filled, fill)?;
    bytes.extend_from_slice(tail)
}
