ghost use Rattle.std.specs.Prelude.{◌≡◌, ℕ, ◌+◌, ◌<◌, length, Some, None};
ghost use Rattle.table.specs.Slots.{lookup};
ghost use Rattle.records.specs.Ids.{same_id, empty};
ghost use Rattle.index.specs.Entries.{entry_after};
ghost use Rattle.index.specs.Changes.{Changed};

use crate::index::ConnectionIndex;
use crate::target::{InitialEvent, RouteDatagramTo, next_entry};
use records::shared::ConnectionId;
use table::table::Table;

/// Takes an event in at the Initial entry of a client's identifier; an empty identifier has none.
pub fn set_initial(
    initial: &mut Table<ConnectionId, RouteDatagramTo>,
    dst_cid: ConnectionId,
    event: InitialEvent,
)
    requires { initial.old.count < length initial.old.slots.now }
    ensures long { length initial.new.slots.now ≡ length initial.old.slots.now }
    ensures changed { Changed initial.old.slots.now initial.new.slots.now initial.old.count initial.new.count dst_cid (entry_after (lookup same_id initial.old.slots.now dst_cid) event) }
{
    if dst_cid.is_empty() {
        return;
    }
    // The same two calls as `set` of holders, whose clause says less of the count.
    match next_entry(initial.get(dst_cid), event) {
        Some(to) => {
            let _ = initial.put(dst_cid, to);
        }
        None => {
            let _ = initial.remove(dst_cid);
        }
    }
}
