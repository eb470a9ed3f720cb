ghost use Rattle.std.specs.Prelude.{◌≡◌, ℕ, ◌<◌, ◌≤◌, true, length};
ghost use Rattle.places.specs.Held.{width};
ghost use Rattle.model.specs.Endpoint.{new_state};
ghost use Rattle.endpoint.specs.State.{state_in, view};
ghost use Rattle.endpoint.specs.SetUps.{sizes_of, set_up_fits, limits_fit, places_fit, numbers_fit, tables_fit};

use crate::endpoint::{Endpoint, Ready, Refused};
use crate::memory::Memory;
use index::connection::Connections;
use index::index::ConnectionIndex;
use places::free::FreeList;
use places::places::Places;
use records::config::Settings;
use table::table::Table;

fn limits_fit(max_incoming: u32, w: usize) -> bool
    ensures { result ≡ limits_fit max_incoming w }
{
    max_incoming <= 64 && w >= 1 && w <= 128
}

fn places_fit(w: usize, memory: &Memory) -> bool
    ensures { result ≡ places_fit w (sizes_of memory.now) }
{
    memory.places.len() >= w && memory.blocks.len() >= w
}

fn numbers_fit(memory: &Memory) -> bool
    ensures { result ≡ numbers_fit (sizes_of memory.now) }
{
    memory.connections.len() >= 128 && memory.handles.len() >= 128 && memory.slots.len() >= 64
}

fn tables_fit(memory: &Memory) -> bool
    ensures { result ≡ tables_fit (sizes_of memory.now) }
{
    memory.connection_ids_initial.len() > 192
        && memory.connection_ids.len() > 1024
        && memory.incoming_connection_remotes.len() > 128
        && memory.connection_reset_tokens.len() > 128
}

fn set_up_fits(settings: &Settings, w: usize, memory: &Memory) -> bool
    ensures { result ≡ set_up_fits settings.now.max_incoming w (sizes_of memory.now) }
{
    limits_fit(settings.max_incoming, w)
        && places_fit(w, memory)
        && numbers_fit(memory)
        && tables_fit(memory)
}

impl<'a> Ready<'a> {
    // Nothing waits and no connection lives, over memory that is enough.
    fn new(memory: Memory<'a>, settings: Settings, w: usize, number: u32) -> Ready<'a>
        requires incoming { settings.max_incoming ≤ 64 }
        requires few { w ≤ 128 }
        requires places { w ≤ length memory.places.now }
        requires blocks { w ≤ length memory.blocks.now }
        requires connections { 128 ≤ length memory.connections.now }
        requires handles { 128 ≤ length memory.handles.now }
        requires slots { 64 ≤ length memory.slots.now }
        requires initial { 192 < length memory.connection_ids_initial.now }
        ensures state { state_in result ≡ new_state }
        ensures settings { result.settings ≡ settings }
        ensures number { result.number ≡ number }
        ensures width { width result.places ≡ w }
    {
        let connection_ids_initial = Table::new(memory.connection_ids_initial);
        let connection_ids = Table::new(memory.connection_ids);
        let incoming_connection_remotes = Table::new(memory.incoming_connection_remotes);
        let connection_reset_tokens = Table::new(memory.connection_reset_tokens);
        let index = ConnectionIndex {
            connection_ids_initial,
            connection_ids,
            incoming_connection_remotes,
            connection_reset_tokens,
        };
        let places = Places::new(memory.places, memory.blocks, w);
        let slots = FreeList::new(&mut memory.slots[..64]);
        let connections = Connections::new(&mut memory.connections[..128]);
        let handles = FreeList::new(&mut memory.handles[..128]);
        Ready {
            settings,
            number,
            last_stateless_reset: None,
            places,
            slots,
            connections,
            handles,
            index,
        }
    }
}

impl<'a> Endpoint<'a> {
    /// An endpoint where nothing waits and no connection lives, over given memory with `w` places. If the settings, `w` or the memory do not fit, it refuses
    /// every call by 2 and leaves the memory alone.
    // `w` and the number stay beside the settings, as in the Rust the settings are the host's alone.
    pub fn new(memory: Memory<'a>, settings: Settings, w: usize, number: u32) -> Endpoint<'a>
        ensures ready { (view result).ready ≡ set_up_fits settings.max_incoming w (sizes_of memory.entry) }
        ensures state { (view result).ready ≡ true → (view result).state ≡ new_state }
        ensures settings { (view result).settings ≡ settings }
        ensures number { (view result).number ≡ number }
        ensures width { (view result).ready ≡ true → (view result).width ≡ w }
    {
        let ready = if set_up_fits(&settings, w, &memory) {
            Ok(Ready::new(memory, settings, w, number))
        } else {
            Err(Refused { settings, number })
        };
        Endpoint { ready }
    }

    /// Whether the set-up was taken.
    pub fn is_ready(&self) -> bool
        ensures { result ≡ (view self.now).ready }
    {
        self.ready.is_ok()
    }

    /// The number that its attempts bear.
    pub fn number(&self) -> u32
        ensures { result ≡ (view self.now).number }
    {
        match &self.ready {
            Ok(ready) => ready.number,
            Err(refused) => refused.number,
        }
    }
}
