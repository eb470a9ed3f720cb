/// What an endpoint is set up with, its memory and its suppliers apart.
#[derive(Clone, Copy, Debug, PartialEq, Eq)]
pub struct Settings {
    /// How many attempts may wait at once, at most 64.
    pub max_incoming: u32,
    /// How many bytes may wait for one attempt, its first datagram apart.
    pub incoming_buffer_size: u64,
    /// How many bytes may wait for all attempts, first datagrams apart.
    pub incoming_buffer_size_total: u64,
    /// The least time between two stateless resets, in milliseconds.
    pub min_reset_interval: u64,
    /// How long an attempt may wait, in milliseconds; 0 is without limit.
    // 0 beside `None`, as the transport parameter may be given either way.
    pub max_idle_timeout: Option<u64>,
    /// Whether a new connection is told of a preferred address.
    pub preferred_address: bool,
}
