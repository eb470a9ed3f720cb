ghost use Rattle.std.specs.Prelude.{◌≡◌};

/// An attempt in the host's hands. It is neither `Copy` nor `Drop`: `accept`, `refuse` or `ignore` spends it, once.
pub struct Attempt {
    number: u32,
    slot: u32,
}

impl Attempt {
    /// The attempt of a slot of the endpoint with this number.
    pub fn new(number: u32, slot: u32) -> Attempt
        ensures { result ≡ record { number = number; slot = slot } }
    {
        Attempt { number, slot }
    }

    /// The number of its endpoint.
    pub fn number(&self) -> u32
        ensures { result ≡ self.now.number }
    {
        self.number
    }

    /// Its slot.
    pub fn slot(&self) -> u32
        ensures { result ≡ self.now.slot }
    {
        self.slot
    }

    /// Ends it.
    pub fn spend(self) -> u32
        ensures { result ≡ self.slot }
    {
        let Attempt { number: _, slot } = self;
        slot
    }
}
