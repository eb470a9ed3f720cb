ghost use Rattle.std.specs.Prelude.{ℕ, ◌<◌, ◌≤◌, length, take, count_by};
ghost use Rattle.std.specs.List.{All};
ghost use Rattle.places.specs.Entries.{names_block, HasBytes};

use crate::record::Place;
use crate::stack::Stack;

/// The blocks that hold the bytes.
#[derive(Drop)]
pub struct Blocks<'a> {
    pub items: &'a mut [[u8; 1500]],
}

/// The waiting datagrams, in order of arrival. Each place names a block of its own, so the blocks of free places are the free blocks.
#[derive(Drop)]
pub struct Places<'a> {
    pub records: Stack<'a, Place>,
    pub blocks: Blocks<'a>,
    ghost few: { length records.items.now ≤ 128 },
    ghost apart: { (b : ℕ) → count_by (names_block b) records.items.now ≤ 1 },
    ghost named: { All (λ p. p.block < length blocks.items.now) records.items.now },
    ghost whole: { All (HasBytes blocks.items.now) (take records.used records.items.now) },
}
