use crate::fault::Failure;
use crate::fields::{bit, bytes, fixed, identifier, number, parts, yes_no};
use crate::form::{Field, Form, Later};
use crate::unread::{Unread, no_line, no_word, not_yet};
use records::config::Settings;
use records::shared::ConnectionId;
use std::alloc::Global;
use suppliers::rows::Row;
use supply::answers::{HandshakeError, Opening, Unopened};

/// The line `endpoint NUMBER W`.
pub fn endpoint(words: &[&str]) -> Result<(u32, usize), Unread> {
    let ["endpoint", number_word, places] = words else {
        return Err(no_line(Form::Endpoint));
    };
    Ok((
        number(number_word, Field::Number)?,
        number(places, Field::Places)?,
    ))
}

/// The line of the settings. More attempts than fit their field stay more than there may be.
pub fn settings(words: &[&str]) -> Result<Settings, Unread> {
    let [
        "settings",
        incoming,
        buffer,
        total,
        interval,
        idle,
        preferred,
    ] = words
    else {
        return Err(no_line(Form::Settings));
    };
    let max_idle_timeout = match *idle {
        "-" => None,
        word => Some(number(word, Field::IdleTimeout)?),
    };
    Ok(Settings {
        // Clamped and not converted: past 64 each number is refused alike, by the set-up.
        max_incoming: number::<u64>(incoming, Field::MaxIncoming)?.min(u32::MAX as u64) as u32,
        incoming_buffer_size: number(buffer, Field::Buffer)?,
        incoming_buffer_size_total: number(total, Field::BufferTotal)?,
        min_reset_interval: number(interval, Field::ResetInterval)?,
        max_idle_timeout,
        preferred_address: bit(preferred, Field::Preferred)?,
    })
}

/// An identifier of the set-up, which refuses one of more than 20 bytes.
fn set_up_id(heap: Global, word: &str, field: Field) -> Result<ConnectionId, Unread> {
    identifier(heap, word, field)?.ok_or(Failure::SetUp)
}

/// The line of the generator.
pub fn generator(heap: Global, words: &[&str]) -> Result<Vec<ConnectionId>, Unread> {
    let list = match words {
        ["generator", "list", list] => *list,
        ["generator", "random", ..] => return Err(not_yet(Later::Random)),
        ["generator", "hashed", ..] => return Err(not_yet(Later::Hashed)),
        _ => return Err(no_line(Form::Generator)),
    };
    list.split(',')
        .map(|word| set_up_id(heap, word, Field::Identifier))
        .try_collect(heap)
}

/// The line of the byte source.
pub fn source(heap: Global, words: &[&str]) -> Result<Vec<u8>, Unread> {
    let ["source", word] = words else {
        return Err(no_line(Form::Source));
    };
    match word.split_once(':') {
        Some(("recorded", hex)) => bytes(heap, hex, Field::Recorded),
        Some(("chacha20", _)) => Err(not_yet(Later::ChaCha20)),
        _ => Err(no_line(Form::Source)),
    }
}

/// The line of the signer.
// Like `source` but for every word: one function for both would be given five of them.
pub fn signer(heap: Global, words: &[&str]) -> Result<[u8; 32], Unread> {
    let ["signer", word] = words else {
        return Err(no_line(Form::Signer));
    };
    match word.split_once(':') {
        Some(("xor", key)) => fixed(heap, key, Field::Key),
        Some(("hmac", _)) => Err(not_yet(Later::Hmac)),
        _ => Err(no_line(Form::Signer)),
    }
}

fn opens(heap: Global, word: &str) -> Result<Result<Opening, Unopened>, Unread> {
    match parts(heap, word, ':')?.as_slice() {
        ["closed"] => Ok(Err(Unopened::Closed)),
        ["reserved"] => Ok(Err(Unopened::ReservedBits)),
        ["badtoken"] => Ok(Err(Unopened::BadToken)),
        ["open", validated, original, retry] => Ok(Ok(Opening {
            validated: bit(validated, Field::Opens)?,
            original: set_up_id(heap, original, Field::Opens)?,
            retry: match *retry {
                "none" => None,
                id => Some(set_up_id(heap, id, Field::Opens)?),
            },
        })),
        _ => Err(no_word(Field::Opens)),
    }
}

fn greets(heap: Global, word: &str) -> Result<Result<(), HandshakeError>, Unread> {
    match parts(heap, word, ':')?.as_slice() {
        ["yes"] => Ok(Ok(())),
        ["other"] => Ok(Err(HandshakeError::Other)),
        ["error", code] => Ok(Err(HandshakeError::TransportError(number(code, Field::Greets)?))),
        _ => Err(no_word(Field::Greets)),
    }
}

fn row(heap: Global, word: &str) -> Result<Row, Unread> {
    match parts(heap, word, '/')?.as_slice() {
        [version, knows, opens_word, proves, greets_word] => Ok(Row {
            version: number(version, Field::Version)?,
            knows: yes_no(knows, Field::Knows)?,
            opens: opens(heap, opens_word)?,
            proves: yes_no(proves, Field::Proves)?,
            greets: greets(heap, greets_word)?,
        }),
        _ => Err(no_word(Field::Row)),
    }
}

/// The line of the door.
pub fn door(heap: Global, words: &[&str]) -> Result<Vec<Row>, Unread> {
    let list = match words {
        ["door", "rows", "-"] => return Ok(Vec::new(heap)),
        ["door", "rows", list] => *list,
        ["door", "signed", ..] => return Err(not_yet(Later::Signed)),
        _ => return Err(no_line(Form::Door)),
    };
    list.split(';')
        .map(|word| row(heap, word))
        .try_collect(heap)
}
