use crate::memory::Storage;
use call_list::answer::answer_line;
use call_list::list::{OwnedCall, Parsed, lend};
use call_list::set_up::SetUp;
use calls::answer::Answer;
use calls::call::{Arrival, Call, LentCall};
use records::cause::Cause;
use records::config::Settings;
use records::incoming::Attempt;
use records::packet::Datagram;
use records::shared::ConnectionId;
use run::run::run;
use std::alloc::{AllocError, Global};
use suppliers::list::ListGenerator;
use suppliers::recorded::Recorded;
use suppliers::rows::{Row, RowDoor};
use suppliers::xor::XorKey;
use supply::suppliers::Suppliers;

type Four = Suppliers<ListGenerator, Recorded, XorKey, RowDoor>;

// A line that cannot be brought is a datagram without bytes: it is refused by 1 as well.
fn lent(line: &Option<OwnedCall>) -> LentCall<'_> {
    lend(line).unwrap_or_else(|| {
        Call::Handle(Arrival {
            datagram: Datagram::default(),
            bytes: &[],
            small: false,
        })
    })
}

fn suppliers_of(
    ids: &[ConnectionId],
    recorded: Vec<u8>,
    key: [u8; 32],
    rows: &[Row],
) -> Result<Four, Cause> {
    Ok(Suppliers {
        generator: ListGenerator::new(ids)?,
        source: Recorded::new(recorded),
        signer: XorKey::new(key),
        door: RowDoor::new(rows)?,
    })
}

// A pool without attempts: a loop, since `collect` and `resize_with` ask for items that may be dropped, and an attempt is spent.
fn clear_pool(heap: Global, n: usize) -> Result<Vec<Option<Attempt>>, AllocError> {
    let mut pool = Vec::new(heap);
    for _ in 0..n {
        if let Err(refused) = pool.push(None) {
            end(refused.value);
            end_pool(pool);
            return Err(AllocError);
        }
    }
    Ok(pool)
}

fn end(attempt: Option<Attempt>) {
    if let Some(attempt) = attempt {
        let _ = attempt.spend();
    }
}

// The attempts that still wait end with the endpoint: popped, since a `for` by value asks for items that may be dropped.
fn end_pool(mut pool: Vec<Option<Attempt>>) {
    while let Some(attempt) = pool.pop() {
        end(attempt);
    }
    pool.destroy_empty();
}

/// What a run leaves: the answers, and their blocks of output.
// Two lists and not one of pairs, since `run` is lent each by itself.
#[derive(Drop)]
struct Left {
    answers: Vec<Answer>,
    blocks: Vec<[u8; 1500]>,
}

// What a run of these calls leaves, or `None` where the set-up is refused.
fn run_list(
    heap: Global,
    four: &mut Four,
    places: usize,
    number: u32,
    settings: Settings,
    calls: &[LentCall],
) -> Result<Option<Left>, AllocError> {
    let n = calls.len();
    let mut blocks = vec![in heap; [0; 1500]; n]?;
    let mut answers = vec![in heap; Answer::Void; n]?;
    // One place more than there may be is enough to be refused.
    let mut storage = Storage::new(heap, places.min(129))?;
    let mut pool = clear_pool(heap, n)?;
    let endpoint = run(
        four,
        storage.lend(),
        settings,
        places,
        number,
        calls,
        pool.as_mut_slice(),
        blocks.as_mut_slice(),
        answers.as_mut_slice(),
    );
    let taken = endpoint.is_ready();
    drop(endpoint);
    end_pool(pool);
    Ok(taken.then_some(Left { answers, blocks }))
}

// One line of text for each call.
fn lines_of(
    heap: Global,
    lines: &[Option<OwnedCall>],
    left: &Left,
) -> Result<Vec<String>, AllocError> {
    let outputs = left.answers.iter().zip(left.blocks.iter());
    lines
        .iter()
        .zip(outputs)
        .enumerate()
        .map(|(i, (line, (answer, block)))| answer_line(heap, i, line, answer, block))
        .try_collect(heap)
}

/// Runs a call list that was read: the text of its answers, or `None` where the set-up is refused.
// `None` and no error: there is one refusal, and it is an answer that is printed.
pub fn answers_of(heap: Global, parsed: Parsed) -> Result<Option<Vec<String>>, AllocError> {
    let Parsed {
        set_up,
        calls: lines,
        end: _,
    } = parsed;
    let SetUp {
        number,
        places,
        settings,
        ids,
        recorded,
        key,
        rows,
    } = set_up;
    let calls: Vec<LentCall> = lines.iter().map(lent).collect(heap)?;
    let Ok(mut four) = suppliers_of(ids.as_slice(), recorded, key, rows.as_slice()) else {
        return Ok(None);
    };
    let left = run_list(heap, &mut four, places, number, settings, calls.as_slice())?;
    let Some(left) = left else {
        return Ok(None);
    };
    Ok(Some(lines_of(heap, lines.as_slice(), &left)?))
}
