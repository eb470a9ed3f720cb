use std::net::SocketAddr;

/// A stateless reset token.
#[derive(Clone, Copy, Debug, PartialEq, Eq)]
pub struct ResetToken {
    pub bytes: [u8; 16],
}

/// A token together with the peer that it came from.
#[derive(Clone, Copy, Debug, PartialEq, Eq)]
pub struct RemoteToken {
    pub remote: SocketAddr,
    pub token: ResetToken,
}
