ghost use Rattle.std.specs.Prelude.{◌≡◌, ◌<◌, ◌≤◌, false, Err, length, MatchResult};
ghost use Rattle.records.specs.declared.cause.Cause.TheVariants.{SetUp};
ghost use Rattle.supply.specs.declared.answers.HandshakeError.TheVariants.{Other};
ghost use Rattle.supply.specs.declared.answers.Unopened.TheVariants.{Closed};
ghost use Rattle.suppliers.specs.Rows.{row_for, rows_say};

use arrayvec::ArrayVec;
use records::cause::Cause;
use records::packet::Received;
use records::shared::ConnectionId;
use supply::answers::{HandshakeError, Opening, Unopened};
use supply::supply::Door;

/// A version, and a door's answers for it.
#[derive(Clone, Copy, Debug)]
pub struct Row {
    pub version: u32,
    pub knows: bool,
    pub opens: Result<Opening, Unopened>,
    pub proves: bool,
    pub greets: Result<(), HandshakeError>,
}

// By hand: a `Result` has no default.
impl Default for Row {
    ghost is_default = { λ r. (r.version ≡ 0) × (r.knows ≡ false) × (r.opens ≡ Err Closed) × (r.proves ≡ false) × (r.greets ≡ Err Other) };

    /// A row that answers as a door does where it has none.
    fn default() -> Row {
        Row {
            version: 0,
            knows: false,
            opens: Err(Unopened::Closed),
            proves: false,
            greets: Err(HandshakeError::Other),
        }
    }
}

/// A door that answers by the first row of the version that it is asked about.
#[derive(Drop)]
pub struct RowDoor {
    rows: ArrayVec<Row, 32>,
}

impl RowDoor {
    /// The door of at most 32 rows.
    pub fn new(rows: &[Row]) -> Result<RowDoor, Cause>
        ensures { MatchResult result (λ door. (length rows.now ≤ 32) × (door.rows.items ≡ rows.now)) (λ e. (32 < length rows.now) × (e ≡ SetUp)) }
    {
        let rows = ArrayVec::try_from(rows).map_err(|_| Cause::SetUp)?;
        Ok(RowDoor { rows })
    }

    fn row(&self, version: u32) -> Option<Row>
        ensures { result ≡ row_for self.now.rows.items version }
    {
        let rows = self.rows.as_slice();
        rows.iter().find(|row| row.version == version).copied()
    }
}

// A default in each answer, and not that of a blank row: the definition says each by itself.
impl Door for RowDoor {
    ghost says = { λ s. rows_say s.rows.items };

    fn knows(&self, version: u32, dst_cid: &ConnectionId) -> bool {
        self.row(version).map_or(false, |row| row.knows)
    }

    fn opens(&self, received: &Received) -> Result<Opening, Unopened> {
        self.row(received.datagram.version)
            .map_or(Err(Unopened::Closed), |row| row.opens)
    }

    fn proves(&self, received: &Received) -> bool {
        self.row(received.datagram.version)
            .map_or(false, |row| row.proves)
    }

    fn greets(
        &self,
        received: &Received,
        handle: u32,
        ids: &[ConnectionId],
    ) -> Result<(), HandshakeError> {
        self.row(received.datagram.version)
            .map_or(Err(HandshakeError::Other), |row| row.greets)
    }
}
