// Starts: where a search for the place of a frame starts, by the frame's sum. An entry has the number of frames at the front whose
// sums are smaller, and where the next one starts. Those frames come before the frame.
ghost use Rattle.std.specs.Prelude.{◌≡◌, ℕ, ◌<◌, ◌≤◌, max, length, slice_index};
ghost use Rattle.holdback.specs.Starts.{start_entries, filled, spread_starts, moved_starts, lowered_starts, Moving};

// An entry is a number of frames times this, and where the next one starts, which is less.
pub const START_UNIT: usize = 131072;

// Places in the table of starts. A setup uses those that `used_entries` says, and the others have the front.
pub const START_ENTRIES: usize = 97;

// The entry for the front: no frames, and the first one starts behind the count.
pub const FRONT: u32 = 2;

// The places from one up to, not including, another get an entry.
pub fn fill(starts: &mut [u32], from: usize, to: usize, start: u32)
    requires { (length starts.old ≡ start_entries) × (to ≤ start_entries) }
    ensures { starts.new ≡ filled start from to starts.old }
{
    let mut k = from;
    while k < to {
        starts[k] = start;
        k += 1;
    }
}

// The larger of two entries.
fn larger(a: u32, b: u32) -> u32
    ensures { result ≡ max a b }
{
    if a < b { b } else { a }
}

// Each place below one gets the largest entry up to it, and the front where there is none.
pub fn spread(starts: &mut [u32], to: usize)
    requires { (length starts.old ≡ start_entries) × (to ≤ start_entries) }
    ensures { starts.new ≡ spread_starts to starts.old }
{
    let mut end = FRONT;
    let mut k = 0;
    while k < to {
        end = larger(end, starts[k]);
        starts[k] = end;
        k += 1;
    }
}

// The entries from one place up to, not including, another each grow by a step, once a frame is put into the queue before the frames
// where they start.
pub fn shift_starts(starts: &mut [u32], from: usize, to: usize, amount: u32)
    requires { Moving starts.old amount × (to ≤ start_entries) }
    ensures { starts.new ≡ moved_starts from to amount starts.old }
{
    let mut k = from;
    while k < to {
        starts[k] += amount;
        k += 1;
    }
}

// The entries below a place each fall by a step, once so many frames at the front have left.
pub fn lower_starts(starts: &mut [u32], to: usize, amount: u32)
    requires starts_len { (length starts.old ≡ start_entries) × (to ≤ start_entries) }
    requires by_index { (k : ℕ) → k < to → amount ≤ slice_index starts.old k }
    ensures { starts.new ≡ lowered_starts to amount starts.old }
{
    let mut k = 0;
    while k < to {
        starts[k] -= amount;
        k += 1;
    }
}
