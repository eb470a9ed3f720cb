ghost use Rattle.std.specs.Prelude.{◌≡◌, ℕ, ◌<◌, true, length, None, Option as OptionOf, slice_index_or};
ghost use Rattle.calls.specs.declared.call.Call.TheVariants.{Handle};
ghost use Rattle.calls.specs.declared.call.Brought.TheVariants.{Opened, Foreign};
ghost use Rattle.calls.specs.Lists.{call_of};
ghost use Rattle.endpoint.specs.State.{Frame, view};
ghost use Rattle.run.specs.Pools.{Holds, StillEmpty, EmptyPast};
ghost use Rattle.run.specs.Steps.{outcome, Stepped, noted, pooled, Ignores};

use crate::pool::{put, take};
use calls::answer::Answer;
use calls::call::{Arrival, Brought, Call, LentCall};
use endpoint::endpoint::Endpoint;
use endpoint::handled::{HandedBack, Handled};
use records::cause::Cause;
use records::incoming::Attempt;
use records::packet::{Close, Received};
use supply::suppliers::Supplies;

// What `handle` says, as a plain value; an attempt goes to the pool.
// The pool and a number, here and below, and not the place alone: what a step promises is of the whole pool.
fn note(
    handled: Result<Handled, Cause>,
    close: Close,
    pool: &mut [Option<Attempt>],
    i: usize,
) -> Answer
    requires within { i < length pool.old }
    requires free { slice_index_or pool.old i None ≡ None }
    ensures answer { result ≡ noted handled close }
    ensures pool { pool.new ≡ pooled handled pool.old i }
{
    match handled {
        Err(cause) => Answer::Refused(cause),
        Ok(Handled::Delivered(handle)) => Answer::Delivered(handle),
        Ok(Handled::Kept(slot)) => Answer::Kept(slot),
        Ok(Handled::Opened(attempt, opening)) => {
            let slot = attempt.slot();
            put(pool, i, attempt);
            Answer::Opened(slot, opening)
        }
        Ok(Handled::Closed) => Answer::Closed(close),
        Ok(Handled::Reset(n)) => Answer::Reset(n),
    }
}

// That the endpoint is ready is a clause here and below, for the reason beside `run_all`; so is `Frame`, since it is said of two states.
fn handle_at<S: Supplies>(
    e: &mut Endpoint,
    supplies: &mut S,
    pool: &mut [Option<Attempt>],
    block: &mut [u8; 1500],
    i: usize,
    arrival: &Arrival<&[u8]>,
) -> Answer
    requires ready { (view e.old).ready ≡ true }
    requires within { i < length pool.old }
    requires free { slice_index_or pool.old i None ≡ None }
    ensures stepped { (slots : ℕ → OptionOf ℕ) → Holds (view e.old).number pool.old slots → Stepped (view e.old) (view e.new) (S.all supplies.old) (S.all supplies.new) pool.old pool.new block.old block.new i (Handle arrival.now) slots result (outcome (view e.old) (S.all supplies.old) slots (call_of (Handle arrival.now))) }
    ensures later { EmptyPast i pool.old pool.new }
    ensures frame { Frame (view e.old) (view e.new) }
{
    let mut close = Close::default();
    let received = Received {
        datagram: &arrival.datagram,
        bytes: arrival.bytes,
    };
    if arrival.small {
        let mut short = [0; 1499];
        let handled = e.handle(supplies, &received, &mut short, &mut close);
        return note(handled, close, pool, i);
    }
    let handled = e.handle(supplies, &received, block, &mut close);
    note(handled, close, pool, i)
}

// Spends an attempt, or keeps it in its place.
fn ignore_opened(e: &mut Endpoint, pool: &mut [Option<Attempt>], k: usize) -> Answer
    requires { (view e.old).ready ≡ true }
    ensures ignores { Ignores (view e.old) (view e.new) pool.old pool.new (Opened k) result }
    ensures empty { StillEmpty pool.old pool.new }
    ensures frame { Frame (view e.old) (view e.new) }
{
    if k >= pool.len() {
        return Answer::Void;
    }
    match take(pool, k) {
        None => Answer::Void,
        Some(attempt) => match e.ignore(attempt) {
            Ok(()) => Answer::Ignored,
            Err(HandedBack { cause, attempt }) => {
                put(pool, k, attempt);
                Answer::Refused(cause)
            }
        },
    }
}

// An attempt of another endpoint is handed back, and ends here.
fn ignore_foreign(e: &mut Endpoint, pool: &[Option<Attempt>], number: u32, slot: u32) -> Answer
    requires { (view e.old).ready ≡ true }
    ensures ignores { Ignores (view e.old) (view e.new) pool.now pool.now (Foreign number slot) result }
    ensures frame { Frame (view e.old) (view e.new) }
{
    if number == e.number() {
        return Answer::Void;
    }
    match e.ignore(Attempt::new(number, slot)) {
        Ok(()) => Answer::Ignored,
        Err(HandedBack { cause, attempt }) => {
            let _ = attempt.spend();
            Answer::Refused(cause)
        }
    }
}

fn ignore_at(e: &mut Endpoint, pool: &mut [Option<Attempt>], brought: Brought) -> Answer
    requires { (view e.old).ready ≡ true }
    ensures ignores { Ignores (view e.old) (view e.new) pool.old pool.new brought result }
    ensures empty { StillEmpty pool.old pool.new }
    ensures frame { Frame (view e.old) (view e.new) }
{
    match brought {
        Brought::Opened(k) => ignore_opened(e, pool, k),
        Brought::Foreign(number, slot) => ignore_foreign(e, pool, number, slot),
    }
}

/// Makes the call of number `i`; a reset goes to the front of its block.
pub(crate) fn step<S: Supplies>(
    e: &mut Endpoint,
    supplies: &mut S,
    pool: &mut [Option<Attempt>],
    block: &mut [u8; 1500],
    i: usize,
    call: &LentCall,
) -> Answer
    requires ready { (view e.old).ready ≡ true }
    requires within { i < length pool.old }
    requires free { slice_index_or pool.old i None ≡ None }
    ensures stepped { (slots : ℕ → OptionOf ℕ) → Holds (view e.old).number pool.old slots → Stepped (view e.old) (view e.new) (S.all supplies.old) (S.all supplies.new) pool.old pool.new block.old block.new i call.now slots result (outcome (view e.old) (S.all supplies.old) slots (call_of call.now)) }
    ensures later { EmptyPast i pool.old pool.new }
    ensures frame { Frame (view e.old) (view e.new) }
{
    match call {
        Call::Handle(arrival) => handle_at(e, supplies, pool, block, i, arrival),
        Call::Ignore(brought) => ignore_at(e, pool, *brought),
    }
}
