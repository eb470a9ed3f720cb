ghost use Rattle.std.specs.Prelude.{◌≡◌, ◌%◌, ◌+◌, ◌<◌, length, true, false, MatchResult, slice_index_or};
ghost use Rattle.records.specs.declared.cause.Cause.TheVariants.{SetUp};
ghost use Rattle.records.specs.Ids.{no_id};
ghost use Rattle.suppliers.specs.Lists.{list_fits, in_turn};
ghost use Rattle.suppliers.specs.Turns.{in_turn_lawful};

use arrayvec::ArrayVec;
use records::cause::Cause;
use records::shared::ConnectionId;
use supply::supply::ConnectionIdGenerator;

/// The identifiers of a list in turn, which begins again after the last.
#[derive(Drop)]
pub struct ListGenerator {
    ids: ArrayVec<ConnectionId, 32>,
    // An iterator that begins again would borrow the list, which lies in the same value.
    at: usize,
    ghost within: { at < length ids.items },
    ghost fits: { list_fits ids.items ≡ true },
}

fn len_of(ids: &[ConnectionId]) -> usize
    ensures { result ≡ (slice_index_or ids.now 0 no_id).len }
{
    ids.first().map_or(0, |id| id.len())
}

impl ListGenerator {
    /// The generator of a list of 1 to 32 identifiers of one length.
    pub fn new(ids: &[ConnectionId]) -> Result<ListGenerator, Cause>
        ensures { MatchResult result (λ g. (list_fits ids.now ≡ true) × (g.ids.items ≡ ids.now) × (g.at ≡ 0)) (λ e. (list_fits ids.now ≡ false) × (e ≡ SetUp)) }
    {
        let len = len_of(ids);
        if ids.is_empty() || !ids.iter().all(|id| id.len() == len) {
            return Err(Cause::SetUp);
        }
        let ids = ArrayVec::try_from(ids).map_err(|_| Cause::SetUp)?;
        Ok(ListGenerator { ids, at: 0 })
    }
}

/// The place after `at`, going round.
fn place_after(at: usize, count: usize) -> usize
    requires { at < count }
    ensures { result ≡ (at + 1) % count }
{
    (at + 1) % count
}

impl ConnectionIdGenerator for ListGenerator {
    ghost means = { λ s. in_turn s.ids.items s.at };

    ghost lawful = { λ s. in_turn_lawful s.ids.items s.at s.fits };

    fn generate_cid(&mut self) -> ConnectionId {
        let ids = self.ids.as_slice();
        let id = ids[self.at];
        self.at = place_after(self.at, ids.len());
        id
    }

    fn validate(&self, cid: &ConnectionId) -> bool {
        self.ids.as_slice().contains(cid)
    }

    fn cid_len(&self) -> usize {
        len_of(self.ids.as_slice())
    }
}
