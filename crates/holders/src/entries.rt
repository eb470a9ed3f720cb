ghost use Rattle.std.specs.Prelude.{◌≡◌, ◌+◌, ◌<◌, ◌≤◌, map, length, OnSome};
ghost use Rattle.std.specs.Map.{update};
ghost use Rattle.table.specs.Slots.{lookup};
ghost use Rattle.records.specs.declared.shared.ConnectionId.{ConnectionId};
ghost use Rattle.records.specs.Ids.{same_id};
ghost use Rattle.model.specs.Endpoint.{put, put_all};

use index::connection::Held;
use records::shared::ConnectionId;
use table::slot::Key;
use table::table::Table;

/// What names an identifier.
pub(crate) trait Named {
    ghost named: { Self → ConnectionId };

    fn cid(&self) -> ConnectionId
        ensures { result ≡ named self.now };
}

impl Named for ConnectionId {
    ghost named = { λ x. x };

    fn cid(&self) -> ConnectionId {
        *self
    }
}

impl Named for Held {
    ghost named = { λ h. h.id };

    fn cid(&self) -> ConnectionId {
        self.id
    }
}

/// Puts an entry into a table with room for one more, or takes the one under `k` out.
pub(crate) fn set<K: Key, V: Copy>(table: &mut Table<K, V>, k: K, v: Option<V>)
    requires { OnSome v (table.old.count < length table.old.slots.now) }
    ensures long { length table.new.slots.now ≡ length table.old.slots.now }
    ensures few { table.new.count ≤ table.old.count + 1 }
    ensures maps { lookup K.PartialEq.eq table.new.slots.now ≡ update K.PartialEq.eq (lookup K.PartialEq.eq table.old.slots.now) k v }
{
    match v {
        Some(v) => {
            let _ = table.put(k, v);
        }
        None => {
            let _ = table.remove(k);
        }
    }
}

/// Enters the holder of an identifier, or removes it; the empty one has no entry.
pub(crate) fn set_holder(ids: &mut Table<ConnectionId, u32>, id: ConnectionId, holder: Option<u32>)
    requires { OnSome holder (ids.old.count < length ids.old.slots.now) }
    ensures long { length ids.new.slots.now ≡ length ids.old.slots.now }
    ensures few { ids.new.count ≤ ids.old.count + 1 }
    ensures maps { lookup same_id ids.new.slots.now ≡ put (lookup same_id ids.old.slots.now) id holder }
{
    if !id.is_empty() {
        set(ids, id, holder);
    }
}

/// Enters the holder of several identifiers, or removes it.
pub(crate) fn set_holders<T: Named>(
    ids: &mut Table<ConnectionId, u32>,
    cids: &[T],
    holder: Option<u32>,
)
    requires { OnSome holder (ids.old.count + length cids.now ≤ length ids.old.slots.now) }
    ensures long { length ids.new.slots.now ≡ length ids.old.slots.now }
    ensures maps { lookup same_id ids.new.slots.now ≡ put_all (lookup same_id ids.old.slots.now) (map T.named cids.now) holder }
{
    for cid in cids {
        set_holder(ids, cid.cid(), holder);
    }
}
