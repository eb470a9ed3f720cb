ghost use Rattle.records.specs.Blank.{IsBlank};

use std::net::{IpAddr, Ipv4Addr, SocketAddr};

/// The peer's address, and the local address that a datagram came to, if it is known.
#[derive(Clone, Copy, Debug, PartialEq, Eq)]
pub struct FourTuple {
    pub remote: SocketAddr,
    pub local_ip: Option<IpAddr>,
}

// By hand: an address of std has no default.
impl Default for FourTuple {
    ghost is_default = { IsBlank };

    /// The unspecified address and the port 0, at no known local address.
    fn default() -> FourTuple {
        FourTuple {
            remote: SocketAddr::new(IpAddr::V4(Ipv4Addr::UNSPECIFIED), 0),
            local_ip: None,
        }
    }
}
