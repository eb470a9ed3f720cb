ghost use Rattle.std.specs.Prelude.{◌≡◌, ℕ, ◌<◌, slice_index};
ghost use Rattle.suppliers.specs.Bytes.{recorded_from};
ghost use Rattle.std.proofs.Common.{rules, arith};

use supply::supply::ByteSource;

/// Recorded bytes, and then zeros.
#[derive(Drop)]
pub struct Recorded {
    bytes: Vec<u8>,
    // A place and no `vec::IntoIter`, which needs a lemma for the bound below and another for its end.
    at: usize,
    // The law on the source is owed at every list, and does not hold by the type of the bytes alone.
    ghost small: { (k : ℕ) → slice_index bytes.items k < 256 },
}

impl Recorded {
    /// The source of these bytes, from the first.
    pub fn new(bytes: Vec<u8>) -> Recorded
        ensures held { result.bytes ≡ bytes }
        ensures start { result.at ≡ 0 }
    {
        Recorded { bytes, at: 0 }
    }
}

impl ByteSource for Recorded {
    ghost feeds = { λ s. recorded_from s.bytes.items s.at };

    ghost bytes = { first_of (Prim.search rules, Prim.grind (arith, Self.row.coded.inj)) };

    fn next_byte(&mut self) -> u8 {
        let Some(byte) = self.bytes.get(self.at).copied() else {
            return 0;
        };
        self.at += 1;
        byte
    }
}
