// The batch (01 calls it the bundle): a one-byte count, then for each entry a one-byte length and its bytes.
// Any bytes and any position get an answer.

#![tactic(auto)]

ghost use Rattle.std.specs.Prelude.{◌≡◌};
ghost use Rattle.model.specs.Batch.{exact_batch};
ghost use Rattle.batch.specs.Walk.{count_of, entry_at, next_at, entry_span_at};

pub mod walker;

// One step of a walk: where an entry's bytes start and end. After them stands the next entry's length, if there is one. A `Range` says no
// more of it, and its two ends are what all that walk a batch ask for by name.
#[derive(Drop)]
pub struct EntrySpan {
    pub start: usize,
    pub end: usize,
}

// Check 5: does the batch end exactly after its last entry? Where a byte or an entry is missing, `let .. else` answers no and ends the walk.
pub fn exact(batch: &[u8]) -> bool
    ensures { result ≡ exact_batch batch.now }
{
    let [count, entries @ ..] = batch else {
        return false;
    };
    let mut rest = entries;
    for _ in 0..*count {
        let [size, after @ ..] = rest else {
            return false;
        };
        let Some(next) = after.get(usize::from(*size)..) else {
            return false;
        };
        rest = next;
    }
    rest.is_empty()
}

// How many entries the batch says that it has.
pub fn count_of(batch: &[u8]) -> usize
    ensures { result ≡ count_of batch.now }
{
    usize::from(splice::byte_at(batch, 0))
}

// The bytes of the entry whose length stands at a position: a part of the batch.
pub fn entry_at(batch: &[u8], at: usize) -> &[u8]
    ensures { result.now ≡ entry_at batch.now at }
{
    let size = splice::byte_at(batch, at);
    splice::part(batch, at.saturating_add(1), usize::from(size))
}

// The position after that entry; the batch's length where it would run past it.
fn next_at(batch: &[u8], at: usize) -> usize
    ensures { result ≡ next_at batch.now at }
{
    let size = splice::byte_at(batch, at);
    at.saturating_add(1 + usize::from(size)).min(batch.len())
}

// Where the entry at a position starts and ends; both at the batch's length past its end.
fn span_at(batch: &[u8], at: usize) -> EntrySpan
    ensures { result ≡ entry_span_at batch.now at }
{
    EntrySpan {
        start: at.saturating_add(1).min(batch.len()),
        end: next_at(batch, at),
    }
}
