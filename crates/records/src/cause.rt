ghost use Rattle.std.specs.Prelude.{◌≡◌};
ghost use Rattle.records.specs.Causes.{cause_number};

/// Why a call refuses, drops or fails, and the number that says so.
#[derive(Clone, Copy, Debug, PartialEq, Eq)]
pub enum Cause {
    Malformed = 1,
    SetUp = 2,
    DeadHandle = 3,
    TooManyIdentifiers = 4,
    UnknownAttempt = 5,
    ShortInitial = 8,
    UnknownVersion = 9,
    Undecodable = 10,
    ReservedBits = 11,
    UnexpectedPacket = 12,
    InvalidIdentifier = 13,
    NoIdentifier = 14,
    ResetTooSoon = 15,
    TooSmallToReset = 16,
    TimedOut = 17,
    NotAuthentic = 18,
    HandshakeFailed = 19,
    Saturated = 20,
    BufferFull = 21,
    NoPlace = 22,
    IdentifiersExhausted = 23,
    NoHandle = 24,
    NoFreshIdentifier = 25,
}

impl Cause {
    /// The cause's number.
    // A method and no `From`: the call then says what the number is of.
    pub fn number(self) -> u8
        ensures { result ≡ cause_number self }
    {
        self as u8
    }
}
