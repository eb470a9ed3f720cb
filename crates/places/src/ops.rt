ghost use Rattle.std.specs.Prelude.{◌≡◌, ℕ, ◌+◌, ◌-◌, ◌*◌, ◌<◌, ◌≤◌, [], ◌∷◌, ◌++◌, length, take, drop, count_by, filter, nat_lt, slice_index_or, slice_set};
ghost use Rattle.std.specs.List.{All, HoldsAt};
ghost use Rattle.std.specs.List.Sorted.{IsPermutation};
ghost use Rattle.places.specs.Entries.{names_block, arrival, total, mine, without, attempts, first_of, written, over, all_bytes, all_kept, place_other};
ghost use Rattle.places.specs.Held.{entries, width};
ghost use Rattle.places.specs.Stacks.{held};

use crate::places::{Blocks, Places};
use crate::record::{Place, Written};
use crate::scan::{attempts_in, bytes_in, find_in, total_in};
use crate::stack::Stack;
use records::packet::{Datagram, Kept, Received};

impl<'a> Blocks<'a> {
    // Lays the bytes at the front of a block.
    fn lay(&mut self, b: usize, bytes: &[u8])
        requires b_in_bounds { b < length self.old.items.now }
        requires bytes_len_bound { length bytes.now ≤ 1500 }
        ensures { self.new.items.now ≡ slice_set self.old.items.now b (bytes.now ++ drop (length bytes.now) (slice_index_or self.old.items.now b [])) }
    {
        self.items[b][0..bytes.len()].copy_from_slice(bytes);
    }
}

impl<'a> Stack<'a, Place> {
    // The block that the next free place names.
    fn free_block(&self) -> usize
        requires { self.now.used < length self.now.items.now }
        ensures { HoldsAt (λ p. result ≡ p.block) self.now.items.now self.now.used }
    {
        self.items[self.used].block
    }

    // Takes the places of an attempt out; the others move to the front, in their order.
    fn spend(&mut self, slot: u32)
        ensures below { self.new.used ≤ self.old.used }
        ensures front { held self.new ≡ filter (place_other slot) (held self.old) }
        ensures moved { IsPermutation self.old.items.now self.new.items.now }
        ensures long { length self.new.items.now ≡ length self.old.items.now }
    {
        let items = &mut *self.items;
        let mut kept = 0;
        // By index: no method of slices moves what passes a test to the front, in order and without a buffer.
        for i in 0..self.used {
            let other = !items[i].is_of(slot);
            if other {
                // A swap keeps every block named by one place.
                items.swap(kept, i);
                kept += 1;
            }
        }
        self.used = kept;
    }
}

// Each place names a block of its own; the rest of a free place is never read.
fn clear(items: &mut [Place], blocks: usize)
    requires { length items.old ≤ blocks }
    ensures apart { (b : ℕ) → count_by (names_block b) items.new ≤ 1 }
    ensures named { All (λ p. p.block < blocks) items.new }
    ensures long { length items.new ≡ length items.old }
{
    for (i, place) in items.iter_mut().enumerate() {
        place.block = i;
    }
}

impl<'a> Places<'a> {
    /// Nothing waits, over the first w places and blocks.
    pub fn new(items: &'a mut [Place], blocks: &'a mut [[u8; 1500]], w: usize) -> Places<'a>
        requires items { w ≤ length items.old }
        requires blocks { w ≤ length blocks.old }
        requires few { w ≤ 128 }
        ensures empty { entries result ≡ [] }
        ensures width { width result ≡ w }
    {
        let items = &mut items[..w];
        let blocks = &mut blocks[..w];
        clear(items, blocks.len());
        Places {
            records: Stack::empty(items),
            blocks: Blocks { items: blocks },
        }
    }

    /// How many datagrams wait.
    pub fn used(&self) -> usize
        ensures { result ≡ length (entries self.now) }
    {
        self.records.used
    }

    /// Whether a place is free.
    pub fn has_room(&self) -> bool
        ensures { result ≡ nat_lt (length (entries self.now)) (width self.now) }
    {
        self.records.has_room()
    }

    /// The bytes of all waiting datagrams, the first of each attempt apart.
    #[tactic(auto, using(crate::proofs::Views::weights_held, crate::proofs::Views::light_held))]
    pub fn total(&self) -> u64
        ensures { result ≡ total (entries self.now) }
    {
        total_in(self.records.as_slice())
    }

    /// The bytes that wait for one attempt, its first datagram apart.
    #[tactic(auto, using(crate::proofs::Views::weights_of, crate::proofs::Views::light_of))]
    pub fn bytes_of(&self, slot: u32) -> u64
        ensures { result ≡ total (mine (entries self.now) slot) }
    {
        bytes_in(self.records.as_slice(), slot)
    }

    /// How many attempts wait.
    pub fn attempts(&self) -> usize
        ensures { result ≡ attempts (entries self.now) }
    {
        attempts_in(self.records.as_slice())
    }

    /// The first datagram of the attempt in a slot.
    #[tactic(auto, using(crate::proofs::Views::first_held))]
    pub fn find(&self, slot: u32) -> Option<Datagram>
        ensures { result ≡ first_of (entries self.now) slot }
    {
        find_in(self.records.as_slice(), slot)
    }

    /// Takes every datagram of an attempt out; the others stay, in their order.
    pub fn spend(&mut self, slot: u32)
        ensures entries { entries self.new ≡ without (entries self.old) slot }
        ensures width { width self.new ≡ width self.old }
    {
        self.records.spend(slot);
    }

    /// Keeps a datagram of at most 1500 bytes, behind all others, where a place is free.
    pub fn keep(&mut self, slot: u32, first: bool, received: &Received)
        requires short { length received.now.bytes.now ≤ 1500 }
        requires room { length (entries self.old) < width self.old }
        ensures entries { entries self.new ≡ entries self.old ++ (arrival slot first received.now.datagram.now received.now.bytes.now ∷ []) }
        ensures width { width self.new ≡ width self.old }
    {
        let block = self.records.free_block();
        self.blocks.lay(block, received.bytes);
        let kept = Kept {
            datagram: *received.datagram,
            len: received.bytes.len(),
        };
        self.records.push(Place {
            slot,
            first,
            block,
            kept,
        });
    }

    /// Writes the records of an attempt's datagrams in order of arrival, and their bytes end to end.
    pub fn write(&self, slot: u32, records: &mut [Kept], bytes: &mut [u8]) -> Written
        requires room { length (entries self.now) ≤ length records.old }
        requires wide { length (entries self.now) * 1500 ≤ length bytes.old }
        ensures written { result ≡ written (mine (entries self.now) slot) }
        ensures records { records.new ≡ over (all_kept (mine (entries self.now) slot)) records.old }
        ensures bytes { bytes.new ≡ over (all_bytes (mine (entries self.now) slot)) bytes.old }
    {
        let blocks = &*self.blocks.items;
        let mut kept = Stack::empty(records);
        let mut laid = Stack::empty(bytes);
        for p in self.records.as_slice() {
            if p.is_of(slot) {
                kept.push(p.kept);
                laid.extend_from_slice(&blocks[p.block][..p.kept.len]);
            }
        }
        Written {
            count: kept.used,
            bytes: laid.used,
        }
    }
}
