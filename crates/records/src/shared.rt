ghost use Rattle.std.specs.Prelude.{◌≡◌, ℕ, ◌≤◌, length, slice_index};

mod ops;

/// A connection identifier: 0 to 20 bytes, and zeros past its length.
// A length beside an array: the kit's `ArrayVec` is not `Copy`, as the keys of a table are.
#[derive(Clone, Copy, Debug, PartialEq, Eq)]
pub struct ConnectionId {
    len: u8,
    bytes: [u8; 20],
    ghost short: { len ≤ 20 },
    ghost wide: { length bytes ≡ 20 },
    ghost zeros: { (k : ℕ) → len ≤ k → slice_index bytes k ≡ 0 },
}
