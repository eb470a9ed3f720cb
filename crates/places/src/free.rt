ghost use Rattle.std.specs.Prelude.{◌≡◌, ◌≤◌, reverse, length};
ghost use Rattle.places.specs.Free.{free_list, counting};

use crate::stack::Stack;

/// Numbers that are free, the one freed last on top.
pub type FreeList<'a> = Stack<'a, u32>;

// From the highest down, so that the lowest is on top.
#[tactic(auto, using(crate::proofs::Tops::piled))]
fn pile(items: &mut [u32])
    requires { length items.old ≤ 1000 }
    ensures long { length items.new ≡ length items.old }
    ensures piled { reverse items.new ≡ counting 0 (length items.old) }
{
    let n = items.len();
    for (i, item) in items.iter_mut().enumerate() {
        *item = (n - 1 - i) as u32;
    }
}

impl<'a> Stack<'a, u32> {
    /// Every number below the length is free, the lowest on top.
    pub fn new(items: &'a mut [u32]) -> FreeList<'a>
        requires { length items.old ≤ 1000 }
        ensures used { result.used ≡ length items.old }
        ensures long { length result.items.now ≡ length items.old }
        ensures free { free_list result ≡ counting 0 (length items.old) }
    {
        let used = items.len();
        pile(items);
        Stack { items, used }
    }
}
