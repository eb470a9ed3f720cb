ghost use Rattle.std.specs.Prelude.{◌≡◌, ◌<◌, length};
ghost use Rattle.table.specs.Slots.{home, Reached, Stands, lookup, stops, vacates, nearest, Put, Removed, Tidied};

use crate::seek::{nearest, next, prev};
use crate::slot::{Key, Slot, Spot};

/// There is no place for another key.
#[derive(Clone, Copy, Debug, PartialEq, Eq)]
pub struct Full;

/// The place where the search for `k` begins, of `n`.
pub(crate) fn home_of<K: Key>(k: K, n: usize) -> usize
    requires { 0 < n }
    ensures is { result ≡ home n (K.Key.code k) }
    ensures below { result < n }
{
    k.hash() as usize % n
}

/// The nearest place from `start` on, going round, at which the search for `k` ends.
fn seek<K: Key, V: Copy>(slots: &[Slot<K, V>], start: usize, k: K) -> Option<usize>
    requires { start < length slots.now }
    ensures { result ≡ nearest (stops K.PartialEq.eq k) slots.now start }
{
    nearest(slots, start, &|x: &Slot<K, V>| x.is_stop(k))
}

/// The nearest place from `start` on, going round, that holds no key.
fn vacant<K: Copy, V: Copy>(slots: &[Slot<K, V>], start: usize) -> Option<usize>
    requires { start < length slots.now }
    ensures { result ≡ nearest vacates slots.now start }
{
    nearest(slots, start, &|x: &Slot<K, V>| x.is_vacant())
}

/// Where `k` stands, with its value.
pub(crate) fn place<K: Key, V: Copy>(slots: &[Slot<K, V>], k: K) -> Option<Spot<V>>
    ensures { Stands K.PartialEq.eq K.Key.code slots.now k result }
{
    if slots.is_empty() {
        return None;
    }
    let at = seek(slots, home_of(k, slots.len()), k)?;
    let slot = slots[at];
    match slot {
        Slot::Used(_, value) => Some(Spot { at, value }),
        _ => None,
    }
}

/// The value under `k`.
pub(crate) fn get_in<K: Key, V: Copy>(slots: &[Slot<K, V>], k: K) -> Option<V>
    ensures { Reached K.PartialEq.eq K.Key.code slots.now → result ≡ lookup K.PartialEq.eq slots.now k }
{
    place(slots, k).map(|x| x.value)
}

/// Puts `v` under `k` and answers what stood there; only a new key is refused, and only where each place has one.
pub(crate) fn put_in<K: Key, V: Copy>(
    slots: &mut [Slot<K, V>],
    k: K,
    v: V,
) -> Result<Option<V>, Full>
    ensures reached { Reached K.PartialEq.eq K.Key.code slots.old → Reached K.PartialEq.eq K.Key.code slots.new }
    ensures done { Reached K.PartialEq.eq K.Key.code slots.old → Put K.PartialEq.eq slots.old slots.new k v result }
{
    if let Some(x) = place(slots, k) {
        slots[x.at] = Slot::Used(k, v);
        return Ok(Some(x.value));
    }
    if slots.is_empty() {
        return Err(Full);
    }
    let p = vacant(slots, home_of(k, slots.len())).ok_or(Full)?;
    slots[p] = Slot::Used(k, v);
    Ok(None)
}

/// Makes freed places empty again, from `p` backwards, as long as an empty place follows.
pub(crate) fn tidy<K: Key, V: Copy>(slots: &mut [Slot<K, V>], p: usize)
    requires { p < length slots.old }
    ensures { Reached K.PartialEq.eq K.Key.code slots.old → Tidied K.PartialEq.eq K.Key.code slots.old slots.new }
{
    let n = slots.len();
    let mut at = p;
    // The places go round, each beside the one after it: a chain of two reversed ranges is no plainer.
    for turn in 0..n {
        let after = next(at, n);
        if !slots[at].is_freed() || !slots[after].is_empty() {
            return;
        }
        // No way to a key leads through this place, and the search for a missing key ends sooner at an empty one.
        slots[at] = Slot::Empty;
        at = prev(at, n);
    }
}

/// Takes `k` out and answers the value that stood under it.
pub(crate) fn remove_in<K: Key, V: Copy>(slots: &mut [Slot<K, V>], k: K) -> Option<V>
    ensures reached { Reached K.PartialEq.eq K.Key.code slots.old → Reached K.PartialEq.eq K.Key.code slots.new }
    ensures done { Reached K.PartialEq.eq K.Key.code slots.old → Removed K.PartialEq.eq slots.old slots.new k result }
{
    let x = place(slots, k)?;
    slots[x.at] = Slot::Freed;
    tidy(slots, x.at);
    Some(x.value)
}
