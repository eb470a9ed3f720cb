ghost use Rattle.std.specs.Prelude.{◌≡◌, ℕ, ◌<◌, ◌≤◌, None, length, slice_index_or};
ghost use Rattle.model.specs.Endpoint.{held_below, held_by};
ghost use Rattle.index.specs.Conns.{conn_of, conns_of};

use crate::connection::{ConnectionMeta, Connections};

/// How many identifiers the connection of a place holds.
fn held_by(place: &Option<ConnectionMeta>) -> usize
    ensures held { result ≡ held_by (conn_of place.now) }
    ensures few { result ≤ 8 }
{
    match place {
        Some(meta) => meta.held,
        None => 0,
    }
}

/// Ends all connections.
fn clear(items: &mut [Option<ConnectionMeta>])
    ensures dead { (k : ℕ) → k < length items.new → slice_index_or items.new k None ≡ None }
    ensures long { length items.new ≡ length items.old }
{
    // A loop and not `fill_with`, which says by a run of calls what a clause here says by place.
    for place in items.iter_mut() {
        // A place without one is not written: it is large.
        if place.is_some() {
            *place = None;
        }
    }
}

impl<'a> Connections<'a> {
    /// None lives.
    pub fn new(items: &'a mut [Option<ConnectionMeta>]) -> Connections<'a>
        ensures dead { (k : ℕ) → k < length result.items.now → slice_index_or result.items.now k None ≡ None }
        ensures long { length result.items.now ≡ length items.old }
    {
        clear(items);
        Connections { items }
    }

    /// How many identifiers all connections hold.
    pub fn held(&self) -> usize
        requires { length self.now.items.now ≤ 128 }
        ensures { result ≡ held_below (conns_of self.now.items.now) (length self.now.items.now) }
    {
        self.items.iter().map(held_by).sum()
    }
}
