ghost use Rattle.std.specs.Prelude.{◌≡◌, [], ◌∷◌, IfOk, string_bytes, decimal};
ghost use Rattle.calls.specs.declared.answer.Answer.TheVariants.{Reset};
ghost use Rattle.call_list.specs.Texts.{spaced, addresses_of, answer_text};
ghost use Rattle.records.specs.Causes.{cause_number};
ghost use Rattle.words.specs.Words.{cause_word};

use crate::list::OwnedCall;
use crate::shown::{Addresses, Closed, Hex, Opened};
use calls::answer::Answer;
use calls::call::Call;
use records::address::FourTuple;
use records::cause::Cause;
use std::alloc::{AllocError, Global};

/// The word for a cause: the host's mistakes are refused, datagrams dropped, and spent attempts failed.
fn word_of(cause: Cause) -> &'static str
    ensures { result.now ≡ cause_word (cause_number cause) }
{
    match cause {
        Cause::Malformed
        | Cause::SetUp
        | Cause::DeadHandle
        | Cause::TooManyIdentifiers
        | Cause::UnknownAttempt => "refused",
        Cause::ShortInitial
        | Cause::UnknownVersion
        | Cause::Undecodable
        | Cause::ReservedBits
        | Cause::UnexpectedPacket
        | Cause::InvalidIdentifier
        | Cause::NoIdentifier
        | Cause::ResetTooSoon
        | Cause::TooSmallToReset
        | Cause::Saturated
        | Cause::BufferFull
        | Cause::NoPlace => "dropped",
        Cause::TimedOut
        | Cause::NotAuthentic
        | Cause::HandshakeFailed
        | Cause::IdentifiersExhausted
        | Cause::NoHandle
        | Cause::NoFreshIdentifier => "failed",
    }
}

/// The addresses of the datagram that a line brings, if it brings one.
fn addresses_of(line: &Option<OwnedCall>) -> Option<FourTuple>
    ensures { result ≡ addresses_of line.now }
{
    match line {
        Some(Call::Handle(arrival)) => Some(arrival.datagram.addresses),
        Some(Call::Ignore(_)) | None => None,
    }
}

/// A reset of the first `len` bytes of the call's block of output.
fn reset_line(
    heap: Global,
    number: usize,
    line: &Option<OwnedCall>,
    len: usize,
    block: &[u8],
) -> Result<String, AllocError>
    ensures { IfOk result (λ s. string_bytes s ≡ answer_text number line.now block.now (Reset len)) }
{
    let Some(addresses) = addresses_of(line) else {
        return format!(in heap; "{number} done");
    };
    let addresses = Addresses(addresses);
    let bytes = Hex(&block[0..len.min(block.len())]);
    format!(in heap; "{number} reset {addresses} {bytes}")
}

fn refused_line(heap: Global, number: usize, cause: Cause) -> Result<String, AllocError>
    ensures { IfOk result (λ s. string_bytes s ≡ spaced (decimal number ∷ cause_word (cause_number cause) ∷ decimal (cause_number cause) ∷ [])) }
{
    format!(in heap; "{number} {} {}", word_of(cause), cause.number())
}

/// The text of the answer to the call of this number, from 0, whose line and whose block of output these are.
pub fn answer_line(
    heap: Global,
    number: usize,
    line: &Option<OwnedCall>,
    answer: &Answer,
    block: &[u8],
) -> Result<String, AllocError>
    ensures { IfOk result (λ s. string_bytes s ≡ answer_text number line.now block.now answer.now) }
{
    match *answer {
        Answer::Refused(cause) => refused_line(heap, number, cause),
        Answer::Delivered(handle) => format!(in heap; "{number} delivered {handle}"),
        Answer::Kept(slot) => format!(in heap; "{number} kept {slot}"),
        Answer::Opened(slot, opening) => {
            format!(in heap; "{number} opened {slot} {}", Opened(opening))
        }
        Answer::Closed(close) => format!(in heap; "{number} closed {}", Closed(close)),
        Answer::Reset(len) => reset_line(heap, number, line, len, block),
        Answer::Ignored => format!(in heap; "{number} ignored"),
        Answer::Void => format!(in heap; "{number} void"),
    }
}
