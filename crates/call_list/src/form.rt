use std::fmt;

/// The form of a line of a call list.
#[derive(Clone, Copy, Debug, PartialEq, Eq)]
pub enum Form {
    /// The six lines of a set-up: the text ends before them.
    SetUp,
    Endpoint,
    Settings,
    Generator,
    Source,
    Signer,
    Door,
    Call,
    Handle,
    Ignore,
}

/// The form of a word, or of a part of one.
#[derive(Clone, Copy, Debug, PartialEq, Eq)]
pub enum Field {
    Number,
    Places,
    MaxIncoming,
    Buffer,
    BufferTotal,
    ResetInterval,
    IdleTimeout,
    Preferred,
    Identifier,
    Recorded,
    Key,
    Row,
    Knows,
    Opens,
    Proves,
    Greets,
    Time,
    Remote,
    Local,
    Ecn,
    Length,
    First,
    Kind,
    Destination,
    Origin,
    Version,
    Mark,
    Fill,
    Tail,
    Attempt,
}

/// A word of the format that is not there yet.
#[derive(Clone, Copy, Debug, PartialEq, Eq)]
pub enum Later {
    Random,
    Hashed,
    ChaCha20,
    Hmac,
    Signed,
    Accept,
    Refuse,
    Need,
    Retire,
    ResetToken,
    Drained,
}

impl fmt::Display for Form {
    fn fmt<W: fmt::Write>(&self, f: &mut fmt::Formatter<W>) -> fmt::Result {
        f.write_str(match self {
            Form::SetUp => "the set-up: endpoint, settings, generator, source, signer and door",
            Form::Endpoint => "endpoint NUMBER W",
            Form::Settings =>
                "settings MAX_INCOMING BUFFER BUFFER_TOTAL RESET_INTERVAL IDLE_TIMEOUT PREFERRED",
            Form::Generator => "generator random L SOURCE, hashed SOURCE SIGNER or list ID,ID,..",
            Form::Source => "source recorded:HEX or chacha20:KEY",
            Form::Signer => "signer hmac:KEY or xor:KEY",
            Form::Door => "door signed SIGNER or rows ROW;ROW;..",
            Form::Call =>
                "a call: handle, accept, refuse, ignore, need, retire, reset-token or drained",
            Form::Handle =>
                "handle TIME REMOTE LOCAL ECN N FIRST KIND DST SRC VERSION MARK FILL TAIL",
            Form::Ignore => "ignore K",
        })
    }
}

impl fmt::Display for Field {
    fn fmt<W: fmt::Write>(&self, f: &mut fmt::Formatter<W>) -> fmt::Result {
        f.write_str(match self {
            Field::Number => "NUMBER: a number of 32 bits",
            Field::Places => "W: a number",
            Field::MaxIncoming => "MAX_INCOMING: a number",
            Field::Buffer => "BUFFER: a number",
            Field::BufferTotal => "BUFFER_TOTAL: a number",
            Field::ResetInterval => "RESET_INTERVAL: a number",
            Field::IdleTimeout => "IDLE_TIMEOUT: - or a number",
            Field::Preferred => "PREFERRED: 0 or 1",
            Field::Identifier => "ID: bytes",
            Field::Recorded => "HEX: bytes",
            Field::Key => "KEY: 64 hexadecimal digits",
            Field::Row => "ROW: VERSION/KNOWS/OPENS/PROVES/GREETS",
            Field::Knows => "KNOWS: yes or no",
            Field::Opens => "OPENS: closed, reserved, badtoken or open:VALIDATED:ORIGINAL:RETRY",
            Field::Proves => "PROVES: yes or no",
            Field::Greets => "GREETS: yes, error:CODE or other",
            Field::Time => "TIME: a number",
            Field::Remote => "REMOTE: 4:ADDRESS:PORT or 6:ADDRESS:PORT:FLOW:SCOPE",
            Field::Local => "LOCAL: -, 4:ADDRESS or 6:ADDRESS",
            Field::Ecn => "ECN: - or a number",
            Field::Length => "N: a number",
            Field::First => "FIRST: a number",
            Field::Kind => "KIND: initial, handshake, zerortt, short, retry or versionnegotiate",
            Field::Destination => "DST: bytes",
            Field::Origin => "SRC: bytes",
            Field::Version => "VERSION: a number of 32 bits",
            Field::Mark => "MARK: 0 or 1",
            Field::Fill => "FILL: two hexadecimal digits",
            Field::Tail => "TAIL: at most N bytes",
            Field::Attempt => "K: a call's number or foreign",
        })
    }
}

impl fmt::Display for Later {
    fn fmt<W: fmt::Write>(&self, f: &mut fmt::Formatter<W>) -> fmt::Result {
        f.write_str(match self {
            Later::Random => "random",
            Later::Hashed => "hashed",
            Later::ChaCha20 => "chacha20",
            Later::Hmac => "hmac",
            Later::Signed => "signed",
            Later::Accept => "accept",
            Later::Refuse => "refuse",
            Later::Need => "need",
            Later::Retire => "retire",
            Later::ResetToken => "reset-token",
            Later::Drained => "drained",
        })
    }
}
