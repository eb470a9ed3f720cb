ghost use Rattle.std.specs.Prelude.{◌≡◌};
ghost use Rattle.records.specs.Keys.{mixed, hash_of};

/// One step of FNV-1a.
pub fn mix(h: u32, b: u32) -> u32
    ensures { result ≡ mixed h b }
{
    (h ^ b).wrapping_mul(16777619)
}

/// FNV-1a of bytes, in 32 bits.
pub fn hash_of(bytes: &[u8]) -> u32
    ensures { result ≡ hash_of bytes.now }
{
    bytes.iter().fold(2166136261, |h, b| mix(h, u32::from(*b)))
}
