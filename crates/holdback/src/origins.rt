// The table of origins: for each station and reading a bit, whether such a frame is in the queue.
ghost use Rattle.std.specs.Prelude.{◌≡◌, ◌*◌, ◌<◌, true, false, length, replicate};
ghost use Rattle.model.specs.Setup.{in_limits};
ghost use Rattle.model.specs.Frame.{decode};
ghost use Rattle.model.specs.Order.{reading_of};
ghost use Rattle.setup.specs.Views.{setup_of};
ghost use Rattle.holdback.specs.Seen.{Placeable, Within, rank_slot, word_length, table_length, has_mark, with_mark, without_mark, is_marked, marked};

use crate::compare::rank_at;
use setup::Setup;
use timestamp::Rank;

// Places for one station in the table of origins, one for each reading.
const ROW_LENGTH: usize = 128;

// Places in a word of the table, a bit for each.
const WORD_LENGTH: usize = 64;

// Words of the table of origins.
pub const TABLE_LENGTH: usize = 32;

// The place of a station and a reading.
pub fn slot(setup: Setup, rank: Rank) -> usize
    requires { (in_limits (setup_of setup) ≡ true) × Within (setup_of setup) rank }
    ensures { (result ≡ rank_slot (setup_of setup) rank) × (result < table_length * word_length) }
{
    let back = setup.delta as usize + 3 * (setup.epsilon as usize);
    rank.station * ROW_LENGTH + (rank.reading + back - setup.modulus as usize)
}

// A place is marked.
pub fn has_mark(i: usize, seen: &[u64]) -> bool
    requires { (length seen.now ≡ table_length) × (i < table_length * word_length) }
    ensures { result ≡ has_mark seen.now i }
{
    (seen[i / WORD_LENGTH] >> (i % WORD_LENGTH)) % 2 == 1
}

// Marks a place, which was not.
pub fn put_mark(i: usize, seen: &mut [u64])
    requires { (length seen.old ≡ table_length) × ((i < table_length * word_length) × (has_mark seen.old i ≡ false)) }
    ensures { seen.new ≡ with_mark seen.old i }
{
    seen[i / WORD_LENGTH] += 1u64 << (i % WORD_LENGTH);
}

// The place of a rank is marked.
fn is_marked(setup: Setup, rank: Rank, seen: &[u64]) -> bool
    requires setup_value { (in_limits (setup_of setup) ≡ true) × Within (setup_of setup) rank }
    requires seen_len { length seen.now ≡ table_length }
    ensures { result ≡ has_mark seen.now (rank_slot (setup_of setup) rank) }
{
    has_mark(slot(setup, rank), seen)
}

// Marks it, which was not.
fn set_mark(setup: Setup, rank: Rank, seen: &mut [u64])
    requires setup_value { (in_limits (setup_of setup) ≡ true) × Within (setup_of setup) rank }
    requires seen_len { (length seen.old ≡ table_length) × (has_mark seen.old (rank_slot (setup_of setup) rank) ≡ false) }
    ensures { seen.new ≡ with_mark seen.old (rank_slot (setup_of setup) rank) }
{
    put_mark(slot(setup, rank), seen);
}

// Takes its mark away, which was there.
pub fn clear_mark(setup: Setup, rank: Rank, seen: &mut [u64])
    requires setup_value { (in_limits (setup_of setup) ≡ true) × Within (setup_of setup) rank }
    requires seen_len { (length seen.old ≡ table_length) × (has_mark seen.old (rank_slot (setup_of setup) rank) ≡ true) }
    ensures { seen.new ≡ without_mark seen.old (rank_slot (setup_of setup) rank) }
{
    let i = slot(setup, rank);
    seen[i / WORD_LENGTH] -= 1u64 << (i % WORD_LENGTH);
}

// Takes all marks away.
pub fn clear_marks(seen: &mut [u64])
    requires { length seen.old ≡ table_length }
    ensures { seen.new ≡ replicate table_length 0 }
{
    let mut k = 0;
    while k < seen.len() {
        seen[k] = 0;
        k += 1;
    }
}

// The place of a frame, with its r at that reading, is marked. 01, 16: "that station and r" are shelved already.
pub fn repeats(setup: Setup, clock: usize, frame: &[u8], reading: usize, seen: &[u64]) -> bool
    requires setup_value { (in_limits (setup_of setup) ≡ true) × (clock < setup.modulus) }
    requires placeable { Placeable (setup_of setup) clock (decode setup.epsilon frame.now) }
    requires seen_len { (length seen.now ≡ table_length) × (reading ≡ reading_of (setup_of setup) clock (decode setup.epsilon frame.now)) }
    ensures { result ≡ is_marked (setup_of setup) clock (decode setup.epsilon frame.now) seen.now }
{
    is_marked(setup, rank_at(reading, frame), seen)
}

// Marks the place of a frame, with its r at that reading; it was not marked.
pub fn mark(setup: Setup, clock: usize, frame: &[u8], reading: usize, seen: &mut [u64])
    requires setup_value { (in_limits (setup_of setup) ≡ true) × (clock < setup.modulus) }
    requires placeable { Placeable (setup_of setup) clock (decode setup.epsilon frame.now) }
    requires seen_len { (length seen.old ≡ table_length) × (reading ≡ reading_of (setup_of setup) clock (decode setup.epsilon frame.now)) }
    requires seen_value { is_marked (setup_of setup) clock (decode setup.epsilon frame.now) seen.old ≡ false }
    ensures { seen.new ≡ marked (setup_of setup) clock (decode setup.epsilon frame.now) seen.old }
{
    set_mark(setup, rank_at(reading, frame), seen);
}
