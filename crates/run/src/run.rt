ghost use Rattle.std.specs.Prelude.{◌≡◌, ℕ, ◌≤◌, true, false, ◌&&◌, List, length, if◌then◌else◌};
ghost use Rattle.model.specs.Endpoint.{new_state};
ghost use Rattle.model.specs.Runs.{Endpoint as Modelled};
ghost use Rattle.model.specs.Theorem.{EndpointLaws};
ghost use Rattle.endpoint.specs.State.{view};
ghost use Rattle.endpoint.specs.SetUps.{sizes_of, set_up_fits};
ghost use Rattle.run.specs.Pools.{all_none};
ghost use Rattle.run.specs.Runs.{Built, Ran, calls_so, world_so, room_fits};

use crate::pool::is_clear;
use crate::step::step;
use calls::answer::Answer;
use calls::call::LentCall;
use endpoint::endpoint::Endpoint;
use endpoint::memory::Memory;
use records::config::Settings;
use records::incoming::Attempt;
use supply::suppliers::Supplies;

/// Makes the calls in order, on an endpoint where nothing was called yet.
// That it is ready is a clause here and in step.rt: the type that says so, `Ready`, stays the endpoint's own, so that no host can put one in another's place.
fn run_all<S: Supplies>(
    e: &mut Endpoint,
    supplies: &mut S,
    calls: &[LentCall],
    pool: &mut [Option<Attempt>],
    blocks: &mut [[u8; 1500]],
    answers: &mut [Answer],
)
    requires ready { (view e.old).ready ≡ true }
    requires new { (view e.old).state ≡ new_state }
    requires room { room_fits (length calls.now) pool.old (length blocks.old) (length answers.old) ≡ true }
    ensures ready { (view e.new).ready ≡ true }
    ensures ran { (E : Modelled) → Built E (view e.old).settings (view e.old).width (view e.old).number (S.all supplies.old) → Ran E calls.now (length calls.now) (S.all supplies.old) (S.all supplies.new) pool.new blocks.old blocks.new answers.old answers.new }
    ensures state { (E : Modelled) → Built E (view e.old).settings (view e.old).width (view e.old).number (S.all supplies.old) → (view e.new).state ≡ (world_so E calls.now (length calls.now)).state }
{
    // No `zip`: the pool is lent whole to each step, since a later call spends what an earlier one opened, and the rest is found by the same number.
    for (i, call) in calls.iter().enumerate() {
        answers[i] = step(e, supplies, pool, &mut blocks[i], i, call);
    }
}

// A refused endpoint is called nothing.
fn run_ready<S: Supplies>(
    e: &mut Endpoint,
    supplies: &mut S,
    calls: &[LentCall],
    pool: &mut [Option<Attempt>],
    blocks: &mut [[u8; 1500]],
    answers: &mut [Answer],
)
    requires new { (view e.old).ready ≡ true → (view e.old).state ≡ new_state }
    requires room { (view e.old).ready ≡ true → room_fits (length calls.now) pool.old (length blocks.old) (length answers.old) ≡ true }
    ensures ready { (view e.new).ready ≡ (view e.old).ready }
    ensures refused { (view e.old).ready ≡ false → (S.all supplies.new ≡ S.all supplies.old) × (pool.new ≡ pool.old) × (blocks.new ≡ blocks.old) × (answers.new ≡ answers.old) }
    ensures ran { (view e.old).ready ≡ true → (E : Modelled) → Built E (view e.old).settings (view e.old).width (view e.old).number (S.all supplies.old) → Ran E calls.now (length calls.now) (S.all supplies.old) (S.all supplies.new) pool.new blocks.old blocks.new answers.old answers.new × ((view e.new).state ≡ (world_so E calls.now (length calls.now)).state) }
{
    if !e.is_ready() {
        return;
    }
    run_all(e, supplies, calls, pool, blocks, answers);
}

// No place for a datagram where the host does not lend enough, so that the set-up is refused.
fn places_for(fits: bool, w: usize) -> usize
    ensures { result ≡ (if fits then w else 0) }
{
    if fits { w } else { 0 }
}

/// Whether the host lends enough for `n` calls.
fn room_fits(n: usize, pool: &[Option<Attempt>], blocks: usize, answers: usize) -> bool
    ensures { result ≡ room_fits n pool.now blocks answers }
{
    pool.len() >= n && blocks >= n && answers >= n && is_clear(pool)
}

/// Runs a list of calls on a new endpoint over given memory, and gives the endpoint back: for the call of number `i` the answer goes to `answers[i]`, a
/// reset to the front of `blocks[i]`, and an attempt that it opens to `pool[i]`, until a later call spends it. If the set-up is refused, or the host lends
/// less than one place of each for a call or a pool with an attempt in it, no call is made, and the endpoint is one that refuses by 2.
// Three slices and no struct of them: a clause names the fields of one by value by place only, and of one behind a `&mut` it must also say that each is still the same slice.
pub fn run<'a, S: Supplies>(
    supplies: &mut S,
    memory: Memory<'a>,
    settings: Settings,
    w: usize,
    number: u32,
    calls: &[LentCall],
    pool: &mut [Option<Attempt>],
    blocks: &mut [[u8; 1500]],
    answers: &mut [Answer],
) -> Endpoint<'a>
    ensures taken { (view result).ready ≡ (room_fits (length calls.now) pool.old (length blocks.old) (length answers.old) && set_up_fits settings.max_incoming w (sizes_of memory.entry)) }
    ensures refused { (view result).ready ≡ false → (S.all supplies.new ≡ S.all supplies.old) × (pool.new ≡ pool.old) × (blocks.new ≡ blocks.old) × (answers.new ≡ answers.old) }
    ensures ran { (view result).ready ≡ true → (E : Modelled) × Built E settings w number (S.all supplies.old) × Ran E calls.now (length calls.now) (S.all supplies.old) (S.all supplies.new) pool.new blocks.old blocks.new answers.old answers.new × ((view result).state ≡ (world_so E calls.now (length calls.now)).state) × EndpointLaws E (calls_so calls.now (length calls.now)) }
{
    let fits = room_fits(calls.len(), pool, blocks.len(), answers.len());
    let mut e = Endpoint::new(memory, settings, places_for(fits, w), number);
    run_ready(&mut e, supplies, calls, pool, blocks, answers);
    e
}
