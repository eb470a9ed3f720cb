ghost use Rattle.std.specs.Prelude.{◌≡◌, ℕ, ◌<◌, ◌≤◌, Bool, true, length, Some, None, slice_index_or, slice_set};
ghost use Rattle.run.specs.Pools.{all_none};

use records::incoming::Attempt;
use std::mem;

/// Puts an attempt where none is.
pub(crate) fn put(pool: &mut [Option<Attempt>], i: usize, attempt: Attempt)
    requires within { i < length pool.old }
    requires free { slice_index_or pool.old i None ≡ None }
    ensures { pool.new ≡ slice_set pool.old i (Some attempt) }
{
    // An attempt cannot be dropped, so what stood there is looked at.
    match mem::replace(&mut pool[i], Some(attempt)) {
        None => {}
        Some(_attempt) => unreachable!(),
    }
}

/// Takes what is there, and leaves nothing.
pub(crate) fn take(pool: &mut [Option<Attempt>], i: usize) -> Option<Attempt>
    requires { i < length pool.old }
    ensures value { result ≡ slice_index_or pool.old i None }
    ensures after { pool.new ≡ slice_set pool.old i None }
{
    pool[i].take()
}

/// Whether there is no attempt.
pub(crate) fn is_clear(pool: &[Option<Attempt>]) -> bool
    ensures { result ≡ all_none pool.now (length pool.now) }
{
    // A loop and not `all`: tried, and what the closure says of each attempt did not close to the definition's test.
    for attempt in pool {
        if attempt.is_some() {
            return false;
        }
    }
    true
}
