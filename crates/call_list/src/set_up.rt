use records::config::Settings;
use records::shared::ConnectionId;
use suppliers::rows::Row;

/// What an endpoint is set up with.
#[derive(Drop)]
pub struct SetUp {
    /// The endpoint's number.
    pub number: u32,
    /// How many places it has for datagrams.
    pub places: usize,
    pub settings: Settings,
    /// The identifiers of its generator, in turn.
    pub ids: Vec<ConnectionId>,
    /// The bytes of its source; zeros follow.
    pub recorded: Vec<u8>,
    /// The key of its signer.
    pub key: [u8; 32],
    /// The rows of its door: the first that fits the version answers.
    pub rows: Vec<Row>,
}
