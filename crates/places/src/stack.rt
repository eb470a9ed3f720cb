ghost use Rattle.std.specs.Prelude.{◌≤◌, length};

/// Values in lent memory, of which the first `used` are held; the one pushed last is on top.
// A length beside a buffer and no `Vec`: the memory is lent.
#[derive(Drop)]
pub struct Stack<'a, T> {
    pub items: &'a mut [T],
    pub used: usize,
    ghost within: { used ≤ length items.now },
}

impl<'a, T: Copy> Stack<'a, T> {
    ghost use Rattle.std.specs.Prelude.{◌≡◌, ◌+◌, ◌-◌, ◌<◌, ◌∷◌, ◌++◌, take, drop, slice_set, nat_lt};
    ghost use Rattle.places.specs.Stacks.{held, top_down, top_of};

    /// Nothing is held yet.
    pub(crate) fn empty(items: &'a mut [T]) -> Stack<'a, T>
        ensures same { result.items.ghost_name ≡ items.entry.ghost_name }
        ensures items { result.items.now ≡ items.old }
        ensures used { result.used ≡ 0 }
    {
        Stack { items, used: 0 }
    }

    /// What is held, the top last.
    pub(crate) fn as_slice(&self) -> &[T]
        ensures { result.now ≡ held self.now }
    {
        let items = &*self.items;
        &items[..self.used]
    }

    /// Whether there is room for one more.
    pub(crate) fn has_room(&self) -> bool
        ensures { result ≡ nat_lt self.now.used (length self.now.items.now) }
    {
        self.used < self.items.len()
    }

    /// Puts a value on top.
    pub fn push(&mut self, x: T)
        requires { self.old.used < length self.old.items.now }
        ensures same { self.new.items.ghost_name ≡ self.old.items.ghost_name }
        ensures items { self.new.items.now ≡ slice_set self.old.items.now self.old.used x }
        ensures used { self.new.used ≡ self.old.used + 1 }
        ensures long { length self.new.items.now ≡ length self.old.items.now }
        ensures held { top_down self.new ≡ x ∷ top_down self.old }
    {
        self.items[self.used] = x;
        self.used += 1;
    }

    /// Takes the top, if there is one.
    pub fn pop(&mut self) -> Option<T>
        ensures top { result ≡ top_of (top_down self.old) }
        ensures used { self.new.used ≡ self.old.used - 1 }
        ensures same { self.new.items.ghost_name ≡ self.old.items.ghost_name }
        ensures items { self.new.items.now ≡ self.old.items.now }
        ensures held { top_down self.new ≡ drop 1 (top_down self.old) }
    {
        self.used = self.used.checked_sub(1)?;
        Some(self.items[self.used])
    }

    /// Puts values on top, in their order.
    pub fn extend_from_slice(&mut self, xs: &[T])
        requires { self.old.used + length xs.now ≤ length self.old.items.now }
        ensures same { self.new.items.ghost_name ≡ self.old.items.ghost_name }
        ensures items { self.new.items.now ≡ take self.old.used self.old.items.now ++ (xs.now ++ drop (self.old.used + length xs.now) self.old.items.now) }
        ensures used { self.new.used ≡ self.old.used + length xs.now }
    {
        let end = self.used + xs.len();
        self.items[self.used..end].copy_from_slice(xs);
        self.used = end;
    }
}
