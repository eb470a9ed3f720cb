ghost use Rattle.std.specs.Prelude.{◌≡◌, Some, None};
ghost use Rattle.index.specs.Entries.{entry_after};

/// What an Initial entry names: a waiting attempt, then its connection.
#[derive(Clone, Copy)]
pub enum RouteDatagramTo {
    Incoming(u32),
    Connection(u32),
}

/// What happens to an Initial entry.
#[derive(Clone, Copy)]
pub enum InitialEvent {
    /// An Initial that no entry routes opens the attempt of a slot.
    Arrival(u32),
    /// The attempt becomes the connection of a handle.
    Accepted(u32),
    /// The attempt comes to nothing.
    Failed,
    /// The connection ends.
    Drained,
}

/// The life of an Initial entry: absent, waiting or connected, and then what happens.
pub fn next_entry(entry: Option<RouteDatagramTo>, event: InitialEvent) -> Option<RouteDatagramTo>
    ensures { result ≡ entry_after entry event }
{
    match (entry, event) {
        (_, InitialEvent::Failed | InitialEvent::Drained) => None,
        (_, InitialEvent::Accepted(handle)) => Some(RouteDatagramTo::Connection(handle)),
        (None, InitialEvent::Arrival(slot)) => Some(RouteDatagramTo::Incoming(slot)),
        (Some(to), InitialEvent::Arrival(_)) => Some(to),
    }
}
