ghost use Rattle.std.specs.Prelude.{◌≡◌, ◌≤◌, IfOk, IfSome, MatchOption, codes, drop, min, vec_items, vec_len};
ghost use Rattle.words.specs.Words.{Decimal, read_on};
ghost use Rattle.std.specs.declared.option.Option.TheVariants.{None};
ghost use Rattle.call_list.specs.Lines.{Arrives, Attempts, Short, BytesBy, BytesOf, BroughtBy, word_at};

use crate::address::{local, remote};
use crate::fields::{bit, bytes, fixed, identifier, number};
use crate::form::{Field, Form, Later};
use crate::list::OwnedCall;
use crate::unread::{Unread, no_line, no_word, not_yet};
use calls::call::{Arrival, Brought, Call};
use records::address::FourTuple;
use records::packet::{Datagram, Kind};
use records::shared::ConnectionId;
use std::alloc::Global;
use words::words::fill_tail;

/// The longest datagram whose bytes are taken.
const LONGEST: usize = 65535;

/// An ECN mark, which may be wrong: one that is too wide for its field stays wrong.
fn ecn_mark(word: &str) -> Result<Option<u8>, Unread>
    ensures { IfOk result (λ o. MatchOption o (word.now ≡ codes "-") (λ mark. Decimal word.now × (mark ≡ min (read_on 0 word.now) 255))) }
{
    if word == "-" {
        return Ok(None);
    }
    // Clamped and not converted: a mark that is too wide is to stay one that can be brought.
    Ok(Some(number::<u64>(word, Field::Ecn)?.min(255) as u8))
}

/// The kind of a datagram's first packet.
// A function, here and for the other words, and no `FromStr`: the types are other crates', and a refusal says which field the word is of.
fn kind_of(word: &str) -> Result<Kind, Unread> {
    match word {
        "initial" => Ok(Kind::Initial),
        "handshake" => Ok(Kind::Handshake),
        "zerortt" => Ok(Kind::ZeroRtt),
        "short" => Ok(Kind::Short),
        "retry" => Ok(Kind::Retry),
        "versionnegotiate" => Ok(Kind::VersionNegotiate),
        _ => Err(no_word(Field::Kind)),
    }
}

/// What a `handle` line says of its datagram's first packet.
#[derive(Clone, Copy)]
struct Packet {
    kind: Kind,
    /// `None` for an identifier of more than 20 bytes.
    dst: Option<ConnectionId>,
    src: Option<ConnectionId>,
    version: u32,
    token_mark: bool,
}

/// The words KIND DST SRC VERSION MARK.
fn first_packet(heap: Global, words: &[&str]) -> Result<Packet, Unread> {
    let [kind, dst, src, version, mark] = words else {
        return Err(no_line(Form::Handle));
    };
    Ok(Packet {
        kind: kind_of(kind)?,
        dst: identifier(heap, dst, Field::Destination)?,
        src: identifier(heap, src, Field::Origin)?,
        version: number(version, Field::Version)?,
        token_mark: bit(mark, Field::Mark)?,
    })
}

/// The datagram of a `handle` line, or `None` where an identifier has more than 20 bytes.
fn datagram(heap: Global, words: &[&str]) -> Result<Option<Datagram>, Unread> {
    let [time, peer, here, ecn, _, first, packet @ .., _, _] = words else {
        return Err(no_line(Form::Handle));
    };
    let time = number(time, Field::Time)?;
    let addresses = FourTuple {
        remote: remote(heap, peer)?,
        local_ip: local(heap, here)?,
    };
    let ecn = ecn_mark(ecn)?;
    let first_len = number(first, Field::First)?;
    let packet = first_packet(heap, packet)?;
    let (Some(dst_cid), Some(src_cid)) = (packet.dst, packet.src) else {
        return Ok(None);
    };
    Ok(Some(Datagram {
        time,
        addresses,
        ecn,
        first_len,
        kind: packet.kind,
        dst_cid,
        src_cid,
        version: packet.version,
        token_mark: packet.token_mark,
    }))
}

/// A `handle` line without bytes. TAIL is too long, unless N or FIRST is no length: then the line is refused for that.
fn no_bytes(n: usize, first: usize) -> Result<Option<OwnedCall>, Unread>
    ensures { IfOk result (λ l. l ≡ None) }
{
    if n > 0 && n <= 1500 && first > 0 && first <= n {
        return Err(no_word(Field::Tail));
    }
    Ok(None)
}

/// The `n` bytes of a datagram: TAIL, and before it FILL. `None` where there are too many.
fn filled(heap: Global, n: usize, fill: &str, tail: &str) -> Result<Option<Vec<u8>>, Unread>
    ensures filled { IfOk result (λ o. IfSome o (λ bytes. BytesBy n fill.now tail.now (vec_items bytes))) }
    ensures short { IfOk result (λ o. IfSome o (λ bytes. vec_len bytes ≤ 65535)) }
{
    let [fill] = fixed::<1>(heap, fill, Field::Fill)?;
    let tail = bytes(heap, tail, Field::Tail)?;
    if n > LONGEST || tail.len() > n {
        return Ok(None);
    }
    let mut bytes = Vec::new(heap);
    fill_tail(&mut bytes, n, fill, tail.as_slice())?;
    Ok(Some(bytes))
}

/// A `handle` line after its first word.
fn handle(heap: Global, words: &[&str], small: bool) -> Result<Option<OwnedCall>, Unread>
    ensures bytes { IfOk result (Arrives (BytesOf words.now)) }
    ensures attempt { IfOk result (Attempts (λ b. ⊥)) }
    ensures short { IfOk result Short }
{
    let [_, _, _, _, n, _, _, _, _, _, _, fill, tail] = words else {
        return Err(no_line(Form::Handle));
    };
    let n = number(n, Field::Length)?;
    let Some(datagram) = datagram(heap, words)? else {
        // No bytes are filled, but a fault of FILL or TAIL comes first.
        filled(heap, 0, fill, tail)?;
        return Ok(None);
    };
    let Some(bytes) = filled(heap, n, fill, tail)? else {
        return no_bytes(n, datagram.first_len);
    };
    Ok(Some(Call::Handle(Arrival {
        datagram,
        bytes,
        small,
    })))
}

/// The attempt that a call brings to the endpoint with this number.
fn brought(word: &str, endpoint: u32) -> Result<Brought, Unread>
    ensures { IfOk result (BroughtBy word.now endpoint) }
{
    if word == "foreign" {
        return Ok(Brought::Foreign(endpoint.wrapping_add(1), 0));
    }
    Ok(Brought::Opened(number(word, Field::Attempt)?))
}

/// A call's line, as its words, for the endpoint with this number.
pub fn call(heap: Global, words: &[&str], endpoint: u32) -> Result<Option<OwnedCall>, Unread>
    ensures bytes { IfOk result (Arrives (BytesOf (drop 1 words.now))) }
    ensures attempt { IfOk result (Attempts (BroughtBy (word_at words.now 1) endpoint)) }
    ensures short { IfOk result Short }
{
    match words {
        ["handle", rest @ .., "small"] if rest.len() == 13 => handle(heap, rest, true),
        ["handle", rest @ ..] => handle(heap, rest, false),
        ["ignore", k] => Ok(Some(Call::Ignore(brought(k, endpoint)?))),
        ["ignore", ..] => Err(no_line(Form::Ignore)),
        ["accept", ..] => Err(not_yet(Later::Accept)),
        ["refuse", ..] => Err(not_yet(Later::Refuse)),
        ["need", ..] => Err(not_yet(Later::Need)),
        ["retire", ..] => Err(not_yet(Later::Retire)),
        ["reset-token", ..] => Err(not_yet(Later::ResetToken)),
        ["drained", ..] => Err(not_yet(Later::Drained)),
        _ => Err(no_line(Form::Call)),
    }
}
