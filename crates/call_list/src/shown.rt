ghost use Rattle.std.specs.Prelude.{Some};
ghost use Rattle.call_list.specs.Texts.{remote_text, local_text, id_text, retry_text, addresses_text, opened_text, closed_text};
ghost use Rattle.words.specs.Words.{bytes_word};

use records::address::FourTuple;
use records::packet::Close;
use records::shared::ConnectionId;
use std::fmt;
use std::net::{IpAddr, SocketAddr};
use supply::answers::Opening;

// A wrapper each, since the types are other crates', which know nothing of call lists.

/// Bytes as hexadecimal digits, or `-` for none.
#[derive(Clone, Copy)]
pub struct Hex<'a>(pub &'a [u8]);

/// A peer's address.
#[derive(Clone, Copy)]
pub struct Remote(pub SocketAddr);

/// A local address, or `-`.
#[derive(Clone, Copy)]
pub struct Local(pub Option<IpAddr>);

/// An identifier.
#[derive(Clone, Copy)]
pub struct Id(pub ConnectionId);

/// The identifier of a Retry packet, or `none`.
#[derive(Clone, Copy)]
pub struct Retry(pub Option<ConnectionId>);

/// The addresses of a datagram, or of what answers it: REMOTE LOCAL.
#[derive(Clone, Copy)]
pub struct Addresses(pub FourTuple);

/// What a door said of an attempt: VALIDATED ORIGINAL RETRY.
#[derive(Clone, Copy)]
pub struct Opened(pub Opening);

/// A close: CODE VERSION REMOTE LOCAL DST SRC.
#[derive(Clone, Copy)]
pub struct Closed(pub Close);

impl fmt::Display for Hex<'_> {
    ghost output = { λ x. Some (bytes_word x.0.now) };

    fn fmt<W: fmt::Write>(&self, f: &mut fmt::Formatter<W>) -> fmt::Result {
        if self.0.is_empty() {
            return f.write_str("-");
        }
        for &byte in self.0 {
            write!(f, "{byte:02x}")?;
        }
        Ok(())
    }
}

impl fmt::Display for Remote {
    ghost output = { λ x. Some (remote_text x.0) };

    fn fmt<W: fmt::Write>(&self, f: &mut fmt::Formatter<W>) -> fmt::Result {
        match self.0 {
            SocketAddr::V4(a) => write!(f, "4:{}:{}", Hex(&a.ip().octets()), a.port()),
            SocketAddr::V6(a) => {
                let octets = a.ip().octets();
                let port = a.port();
                let flow = a.flowinfo();
                let scope = a.scope_id();
                write!(f, "6:{}:{port}:{flow}:{scope}", Hex(&octets))
            }
        }
    }
}

impl fmt::Display for Local {
    ghost output = { λ x. Some (local_text x.0) };

    fn fmt<W: fmt::Write>(&self, f: &mut fmt::Formatter<W>) -> fmt::Result {
        match self.0 {
            None => f.write_str("-"),
            Some(IpAddr::V4(a)) => write!(f, "4:{}", Hex(&a.octets())),
            Some(IpAddr::V6(a)) => write!(f, "6:{}", Hex(&a.octets())),
        }
    }
}

impl fmt::Display for Id {
    ghost output = { λ x. Some (id_text x.0) };

    fn fmt<W: fmt::Write>(&self, f: &mut fmt::Formatter<W>) -> fmt::Result {
        write!(f, "{}", Hex(self.0.as_bytes()))
    }
}

impl fmt::Display for Retry {
    ghost output = { λ x. Some (retry_text x.0) };

    fn fmt<W: fmt::Write>(&self, f: &mut fmt::Formatter<W>) -> fmt::Result {
        match self.0 {
            None => f.write_str("none"),
            Some(id) => write!(f, "{}", Id(id)),
        }
    }
}

impl fmt::Display for Addresses {
    ghost output = { λ x. Some (addresses_text x.0) };

    fn fmt<W: fmt::Write>(&self, f: &mut fmt::Formatter<W>) -> fmt::Result {
        write!(f, "{} {}", Remote(self.0.remote), Local(self.0.local_ip))
    }
}

impl fmt::Display for Opened {
    ghost output = { λ x. Some (opened_text x.0) };

    fn fmt<W: fmt::Write>(&self, f: &mut fmt::Formatter<W>) -> fmt::Result {
        let validated = self.0.validated as u8;
        write!(
            f,
            "{validated} {} {}",
            Id(self.0.original),
            Retry(self.0.retry)
        )
    }
}

impl fmt::Display for Closed {
    ghost output = { λ x. Some (closed_text x.0) };

    fn fmt<W: fmt::Write>(&self, f: &mut fmt::Formatter<W>) -> fmt::Result {
        let Close {
            code,
            version,
            addresses,
            dst_cid,
            src_cid,
        } = self.0;
        let addresses = Addresses(addresses);
        write!(
            f,
            "{code} {version} {addresses} {} {}",
            Id(dst_cid),
            Id(src_cid)
        )
    }
}
