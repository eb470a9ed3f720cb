ghost use Rattle.std.specs.Prelude.{◌≡◌, ℕ, length};
ghost use Rattle.supply.specs.Meaning.{spent};
ghost use Rattle.model.specs.Endpoint.{row};
ghost use Rattle.model.specs.Calls.{number_of};

use supply::suppliers::Supplies;

/// Fills `out` with the source's next bytes.
pub fn draw_bytes<S: Supplies>(supplies: &mut S, out: &mut [u8])
    ensures bytes { out.new ≡ row (S.all supplies.old).source 0 (length out.old) }
    ensures after { S.all supplies.new ≡ spent 0 (length out.old) (S.all supplies.old) }
{
    for byte in out {
        *byte = supplies.next_byte();
    }
}

/// A number of the source's next eight bytes, the first one highest.
pub fn draw_number<S: Supplies>(supplies: &mut S) -> u64
    ensures value { result ≡ number_of (row (S.all supplies.old).source 0 8) }
    ensures after { S.all supplies.new ≡ spent 0 8 (S.all supplies.old) }
{
    // `array::from_fn` says nothing of what its calls leave, so that what was drawn would not be known.
    let mut bytes = [0; 8];
    draw_bytes(supplies, &mut bytes);
    u64::from_be_bytes(bytes)
}
