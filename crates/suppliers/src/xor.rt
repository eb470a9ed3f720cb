ghost use Rattle.std.specs.Prelude.{◌≡◌, length};
ghost use Rattle.suppliers.specs.Bytes.{xor_signature};
ghost use Rattle.std.proofs.Common.{rules, arith};

use std::array;
use supply::supply::HmacKey;

/// A key that signs by exclusive or, for tests.
#[derive(Drop)]
pub struct XorKey {
    key: [u8; 32],
    // The law on signatures is owed at every list, and does not hold by the array's type alone.
    ghost wide: { length key ≡ 32 },
}

impl XorKey {
    /// The signer of a key.
    pub fn new(key: [u8; 32]) -> XorKey
        ensures { result.key ≡ key }
    {
        XorKey { key }
    }
}

impl HmacKey for XorKey {
    ghost signs = { λ s message. xor_signature s.key message };

    ghost wide = { first_of (Prim.search rules, Prim.grind (arith, Self.row.coded.inj)) };

    fn sign(&self, message: &[u8]) -> [u8; 32] {
        if message.is_empty() {
            return self.key;
        }
        array::from_fn(|i| self.key[i] ^ message[i % message.len()])
    }
}
