ghost use Rattle.std.specs.Prelude.{◌≡◌, length};
ghost use Rattle.table.specs.Slots.{Reached, lookup, used, Put, Removed, Cleared};

use crate::ops::{Full, get_in, put_in, remove_in};
use crate::slot::{Key, Slot};

/// A map from keys to values over lent places, of which it counts those in use.
#[derive(Drop)]
pub struct Table<'a, K: Key, V: Copy> {
    slots: &'a mut [Slot<K, V>],
    // A count of its own: the keys do not lie at the front.
    count: usize,
    pub ghost reached: { Reached K.PartialEq.eq K.Key.code slots.now },
    pub ghost counted: { count ≡ used slots.now },
}

/// Makes each place empty.
fn clear<K: Copy, V: Copy>(slots: &mut [Slot<K, V>])
    ensures { Cleared slots.new }
{
    slots.fill(Slot::Empty);
}

impl<'a, K: Key, V: Copy> Table<'a, K, V> {
    /// An empty table over all of `slots`, whatever they held.
    pub fn new(slots: &'a mut [Slot<K, V>]) -> Table<'a, K, V>
        ensures cleared { Cleared result.slots.now }
        ensures empty { result.count ≡ 0 }
        ensures same_size { length result.slots.now ≡ length slots.old }
    {
        clear(slots);
        Table { slots, count: 0 }
    }

    /// How many keys there are.
    pub fn count(&self) -> usize
        ensures { result ≡ self.now.count }
    {
        self.count
    }

    /// The value under `k`.
    pub fn get(&self, k: K) -> Option<V>
        ensures { result ≡ lookup K.PartialEq.eq self.now.slots.now k }
    {
        get_in(self.slots, k)
    }

    /// Puts `v` under `k` and answers what stood there; only a new key is refused, and only by a full table.
    pub fn put(&mut self, k: K, v: V) -> Result<Option<V>, Full>
        // Said of two states, here and below: an invariant speaks of one.
        ensures long { length self.new.slots.now ≡ length self.old.slots.now }
        ensures done { Put K.PartialEq.eq self.old.slots.now self.new.slots.now k v result }
    {
        let r = put_in(self.slots, k, v);
        if let Ok(None) = r {
            self.count += 1;
        }
        r
    }

    /// Takes `k` out and answers the value that stood under it.
    pub fn remove(&mut self, k: K) -> Option<V>
        ensures long { length self.new.slots.now ≡ length self.old.slots.now }
        ensures done { Removed K.PartialEq.eq self.old.slots.now self.new.slots.now k result }
    {
        let v = remove_in(self.slots, k)?;
        self.count -= 1;
        Some(v)
    }
}
