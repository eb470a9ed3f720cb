ghost use Rattle.std.specs.Prelude.{◌≡◌, ℕ, ◌+◌, ◌<◌, ◌≤◌, true, length, sum_by};
ghost use Rattle.records.specs.declared.shared.ConnectionId.{ConnectionId};
ghost use Rattle.places.specs.Free.{free_list};
ghost use Rattle.places.specs.Held.{entries, width};
ghost use Rattle.waiting.specs.Groups.{groups, holding, proper};
ghost use Rattle.waiting.specs.Leads.{is_slot, lead, goes, returns_to, clear_at, entered};
ghost use Rattle.index.specs.Routes.{initial_of};
ghost use Rattle.index.specs.Conns.{entered_by};

use index::connection::Connections;
use index::index::ConnectionIndex;
use places::free::FreeList;
use places::places::Places;
use records::config::Settings;

mod first;
mod handle;
mod ignore;
mod keep;
mod open;
mod room;
mod setup;
mod stray;

/// The server endpoint over its given memory.
#[derive(Drop)]
pub struct Endpoint<'a> {
    /// What it serves with; if the set-up was refused, every call is refused by 2.
    ready: Result<Ready<'a>, Refused>,
}

/// An endpoint whose set-up was taken.
#[derive(Drop)]
struct Ready<'a> {
    settings: Settings,
    number: u32,
    last_stateless_reset: Option<u64>,
    /// The datagrams that wait for attempts.
    places: Places<'a>,
    /// The free slots for attempts.
    // Numbers and no `Box`, here and below: there is no heap.
    slots: FreeList<'a>,
    connections: Connections<'a>,
    /// The free handles for connections.
    handles: FreeList<'a>,
    index: ConnectionIndex<'a>,
    ghost few_incoming: { settings.max_incoming ≤ 64 },
    ghost roomy: { 192 < length index.connection_ids_initial.slots.now },
    ghost all_connections: { length connections.items.now ≡ 128 },
    ghost all_slots: { length slots.items.now ≡ 64 },
    ghost proper: { proper (entries places) ≡ true },
    ghost shared: { slots.used + length (groups (entries places)) ≡ 64 },
    ghost few_entries: { index.connection_ids_initial.count ≤ entered (groups (entries places)) + sum_by entered_by connections.items.now },
    ghost once: { (s : ℕ) → sum_by (is_slot s) (free_list slots) + holding s (groups (entries places)) ≤ 1 },
    ghost named: { (s : ℕ) → goes (initial_of index) s (lead (groups (entries places)) s) ≡ true },
    ghost pointed: { (k : ConnectionId) → returns_to (groups (entries places)) k (initial_of index k) ≡ true },
    ghost no_empty: { (k : ConnectionId) → clear_at (initial_of index) k ≡ true },
}

/// What a set-up that was refused asked for.
#[derive(Drop)]
struct Refused {
    settings: Settings,
    number: u32,
}
