ghost use Rattle.std.specs.Prelude.{◌≡◌, IfOk};
ghost use Rattle.std.specs.Net.Addr.{ipv4_octets, ipv6_octets};
ghost use Rattle.call_list.specs.Texts.{local_text};
ghost use Rattle.words.specs.Words.{bytes_word};

use crate::fields::{fixed, number, parts};
use crate::form::Field;
use crate::unread::{Unread, no_word};
use std::alloc::Global;
use std::net::{IpAddr, Ipv4Addr, Ipv6Addr, SocketAddr, SocketAddrV4, SocketAddrV6};

/// An IPv4 address.
fn ipv4(heap: Global, word: &str, field: Field) -> Result<Ipv4Addr, Unread>
    ensures { IfOk result (λ a. bytes_word (ipv4_octets a) ≡ word.now) }
{
    Ok(Ipv4Addr::from_octets(fixed(heap, word, field)?))
}

/// The IPv6 address of these octets.
// Beside `ipv4`, and no generic: std states the octets of the one, and the segments of the other.
fn ipv6_of(octets: &[u8; 16]) -> Ipv6Addr
    ensures { ipv6_octets result ≡ octets.now }
{
    Ipv6Addr::from_octets(*octets)
}

/// An IPv6 address.
fn ipv6(heap: Global, word: &str, field: Field) -> Result<Ipv6Addr, Unread>
    ensures { IfOk result (λ a. bytes_word (ipv6_octets a) ≡ word.now) }
{
    Ok(ipv6_of(&fixed(heap, word, field)?))
}

/// A peer's address.
pub fn remote(heap: Global, word: &str) -> Result<SocketAddr, Unread> {
    match parts(heap, word, ':')?.as_slice() {
        ["4", ip, port] => Ok(SocketAddr::V4(SocketAddrV4::new(
            ipv4(heap, ip, Field::Remote)?,
            number(port, Field::Remote)?,
        ))),
        ["6", ip, port, flow, scope] => Ok(SocketAddr::V6(SocketAddrV6::new(
            ipv6(heap, ip, Field::Remote)?,
            number(port, Field::Remote)?,
            number(flow, Field::Remote)?,
            number(scope, Field::Remote)?,
        ))),
        _ => Err(no_word(Field::Remote)),
    }
}

/// A local address, if there is one.
pub fn local(heap: Global, word: &str) -> Result<Option<IpAddr>, Unread>
    ensures { IfOk result (λ address. local_text address ≡ word.now) }
{
    if word == "-" {
        return Ok(None);
    }
    match word.split_once(':') {
        Some(("4", ip)) => Ok(Some(IpAddr::V4(ipv4(heap, ip, Field::Local)?))),
        Some(("6", ip)) => Ok(Some(IpAddr::V6(ipv6(heap, ip, Field::Local)?))),
        _ => Err(no_word(Field::Local)),
    }
}
