ghost use Rattle.std.specs.Prelude.{◌≡◌, IfOk, drop, map};
ghost use Rattle.std.specs.List.{AllByRecursion};
ghost use Rattle.call_list.specs.Lines.{Lends, ReadInTurn, Short, spoken};
ghost use Rattle.call_list.specs.declared.list.Numbered.{Numbered};

use crate::call::call;
use crate::fault::{Failure, Fault, Trouble};
use crate::fields::parts;
use crate::form::Form;
use crate::set_up::SetUp;
use crate::set_up_lines::{door, endpoint, generator, settings, signer, source};
use crate::unread::Unread;
use calls::call::{Arrival, Call, LentCall};
use std::alloc::{AllocError, Global};

/// A call that owns its datagram's bytes.
pub type OwnedCall = Call<Arrival<Vec<u8>>>;

/// A call's line that borrows its datagram's bytes. `None` is one whose datagram cannot be brought.
pub type Line<'a> = Option<LentCall<'a>>;

/// A line that was read, lent.
pub fn lend(read: &Option<OwnedCall>) -> Line<'_>
    ensures { Lends read.now result }
{
    match read {
        None => None,
        Some(Call::Handle(arrival)) => Some(Call::Handle(Arrival {
            datagram: arrival.datagram,
            bytes: arrival.bytes.as_slice(),
            small: arrival.small,
        })),
        Some(Call::Ignore(brought)) => Some(Call::Ignore(*brought)),
    }
}

/// A call list as it was read.
#[derive(Drop)]
pub struct Parsed {
    pub set_up: SetUp,
    /// The calls up to the first line with a fault. `None` is a line whose datagram cannot be brought, as an identifier
    /// has more than 20 bytes, or it has more than 65,535: it is answered `refused 1`, as the input test comes before
    /// all others.
    pub calls: Vec<Option<OwnedCall>>,
    /// The fault that ends the list, if there is one.
    pub end: Option<Fault>,
}

/// A line that says something, and its number, from 1.
#[derive(Clone, Copy)]
struct Numbered<'a> {
    number: usize,
    text: &'a str,
}

impl Numbered<'_> {
    /// What the line's words are read as, or why the list is not read.
    fn read<T, F: FnOnce(&[&str]) -> Result<T, Unread>>(
        self,
        heap: Global,
        read: F,
    ) -> Result<T, Failure>
        requires { F.IsAlwaysCallable read }
    {
        let words = parts(heap, self.text, ' ')?;
        read(words.as_slice()).map_err(|unread| unread.at(self.number))
    }
}

/// The lines that are neither empty nor comments.
fn speaking<'a>(heap: Global, text: &'a str) -> Result<Vec<Numbered<'a>>, AllocError>
    ensures { IfOk result (λ v. map (λ (l : Numbered). l.text.now) v.items ≡ spoken text.now) }
{
    text.lines()
        .enumerate()
        .filter(|(_, line)| !line.is_empty() && !line.starts_with('#'))
        .map(|(before, text)| Numbered {
            number: before.saturating_add(1),
            text,
        })
        .collect(heap)
}

/// The fault of a text that ends before its set-up does.
fn cut_off(lines: &[Numbered]) -> Failure {
    Failure::Fault(Fault {
        line: lines.last().map_or(1, |last| last.number.saturating_add(1)),
        trouble: Trouble::Line(Form::SetUp),
    })
}

/// The set-up, from the first six lines.
fn set_up(heap: Global, lines: &[Numbered]) -> Result<SetUp, Failure> {
    let [first, second, third, fourth, fifth, sixth, ..] = lines else {
        return Err(cut_off(lines));
    };
    let (number, places) = first.read(heap, endpoint)?;
    Ok(SetUp {
        number,
        places,
        settings: second.read(heap, settings)?,
        ids: third.read(heap, |words| generator(heap, words))?,
        recorded: fourth.read(heap, |words| source(heap, words))?,
        key: fifth.read(heap, |words| signer(heap, words))?,
        rows: sixth.read(heap, |words| door(heap, words))?,
    })
}

/// The set-up with the calls of these lines up to the first with a fault, and the fault.
fn with_calls(heap: Global, set_up: SetUp, lines: &[Numbered]) -> Result<Parsed, Failure>
    ensures read { IfOk result (λ p. ReadInTurn p.set_up.number (map (λ (l : Numbered). l.text.now) lines.now) p.calls.items) }
    ensures short { IfOk result (λ p. AllByRecursion Short p.calls.items) }
{
    let mut calls = Vec::new(heap);
    // A loop and not `try_collect`, since the calls before a fault are kept.
    for line in lines {
        let words = parts(heap, line.text, ' ')?;
        match call(heap, words.as_slice(), set_up.number).map_err(|unread| unread.at(line.number)) {
            Ok(call) => calls.push(call)?,
            Err(Failure::Fault(fault)) => {
                let end = Some(fault);
                return Ok(Parsed { set_up, calls, end });
            }
            Err(failure) => return Err(failure),
        }
    }
    let end = None;
    Ok(Parsed { set_up, calls, end })
}

/// Reads a call list: its set-up, and its calls up to the first line with a fault.
pub fn parse(heap: Global, text: &str) -> Result<Parsed, Failure>
    ensures read { IfOk result (λ p. ReadInTurn p.set_up.number (drop 6 (spoken text.now)) p.calls.items) }
    ensures short { IfOk result (λ p. AllByRecursion Short p.calls.items) }
{
    let lines = speaking(heap, text)?;
    let lines = lines.as_slice();
    let (front, rest) = lines.split_at(lines.len().min(6));
    with_calls(heap, set_up(heap, front)?, rest)
}
