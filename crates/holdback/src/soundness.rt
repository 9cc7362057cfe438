// 01: "It is sound if": one walk over the frames, each judged once, its origin by one look-up.
ghost use Rattle.std.specs.Prelude.{◌≡◌, ◌<◌, ◌≤◌, true, length, replicate};
ghost use Rattle.model.specs.Setup.{in_limits, depth};
ghost use Rattle.model.specs.Tick.{holdback_size};
ghost use Rattle.setup.specs.Views.{setup_of};
ghost use Rattle.timestamp.specs.Window.{ceilings_of};
ghost use Rattle.holdback.specs.Seen.{table_length};
ghost use Rattle.holdback.specs.Starts.{all_front};
ghost use Rattle.holdback.specs.Sound.{emptied, unsound, judged_at, Recent, Walking, Starting, Walked};

use crate::compare::rank_of;
use crate::keys::{Key, key_less, key_of, no_key};
use crate::origins::{clear_marks, has_mark, put_mark};
use crate::starts::{FRONT, START_ENTRIES, START_UNIT, fill, spread};
use crate::timing::{entries_to, timely, used_entries};
use setup::{Setup, depth};
use timestamp::ceilings_of;

// What the walk answers: sound or not, how many frames, and where they end, of an unsound queue as of an empty one.
#[derive(Drop)]
pub struct Walk {
    pub sound: bool,
    pub count: usize,
    pub end: usize,
}

pub fn emptied() -> Walk
    ensures { result ≡ emptied }
{
    Walk {
        sound: false,
        count: 0,
        end: 2,
    }
}

// Where a frame ends, 0 where it is not sound; and its key.
#[derive(Drop)]
struct Judged {
    end: usize,
    key: Key,
}

fn unsound() -> Judged
    ensures { result ≡ unsound }
{
    Judged {
        end: 0,
        key: no_key(),
    }
}

// Judges frame i, which starts at `at`; the one before it has the key `last`. Once it passes 10 to 12, its rank is read, once for the tests
// behind that. The buffer has room for it, as it has for each frame of a queue.
fn judge_at(
    setup: Setup,
    clock: usize,
    least: usize,
    ceilings: &[u8],
    buf: &[u8],
    seen: &[u64],
    i: usize,
    last: Key,
    at: usize,
) -> Judged
    requires setup_value { (in_limits (setup_of setup) ≡ true) × ((clock < setup.modulus) × (ceilings.now ≡ ceilings_of setup.n setup.epsilon)) }
    requires recent { Recent (setup_of setup) least × (i < depth setup.n setup.epsilon setup.delta) }
    requires walking { Walking (setup_of setup) clock least buf.now seen.now i last at }
    ensures { result ≡ judged_at (setup_of setup) clock least buf.now i }
{
    let next = at + frame::window_end(setup.epsilon as usize, &buf[at..]);
    if frame::check_window(setup, ceilings, &buf[at..]) != 0 {
        return unsound();
    }
    let rank = rank_of(setup, clock, &buf[at..next]);
    if !timely(setup, least, rank) {
        return unsound();
    }
    let key = key_of(setup, rank, &buf[at..]);
    if !key_less(last, key) {
        return unsound();
    }
    if has_mark(key.slot, seen) {
        return unsound();
    }
    Judged { end: next, key }
}

// The walk. The table of origins gets those of the frames so far, and the table of starts, in the place behind that of a frame's sum, where
// the frame ends; frames that are due before v share the first place. The entries grow, so in the end each place gets the largest up to it.
// At a frame that is not sound the tables of origins and of starts become what they were.
fn walk_frames(
    setup: Setup,
    clock: usize,
    least: usize,
    ceilings: &[u8],
    buf: &[u8],
    count: usize,
    seen: &mut [u64],
    starts: &mut [u32],
) -> Walk
    requires setup_value { (in_limits (setup_of setup) ≡ true) × ((clock < setup.modulus) × (ceilings.now ≡ ceilings_of setup.n setup.epsilon)) }
    requires recent { Recent (setup_of setup) least × Starting (setup_of setup) clock buf.now seen.old starts.old count }
    ensures { Walked (setup_of setup) clock least buf.now result.sound result.count result.end seen.new starts.new }
{
    let mut i = 0;
    let mut at = 2;
    let mut last = no_key();
    while i < count {
        let judged = judge_at(setup, clock, least, ceilings, buf, seen, i, last, at);
        let next = judged.end;
        if next == 0 {
            clear_marks(seen);
            fill(starts, 0, START_ENTRIES, FRONT);
            return emptied();
        }
        last = judged.key;
        put_mark(last.slot, seen);
        let k = entries_to(setup, last.sum);
        at = next;
        i += 1;
        starts[k] = (i * START_UNIT + at) as u32;
    }
    spread(starts, used_entries(setup));
    Walk {
        sound: true,
        count,
        end: at,
    }
}

// 01: "It is sound if it holds at most n(δ + 3ε) frames that pass 10 to 12, strictly in order, no station and r twice, each
// sum at most ε − 1 past v and each sum + δ + ε not before v", here not before the least due clock allowed. The tables of origins
// and of starts are lent, the one empty and the other with the front in each place, and come back for the frames of the queue, or
// of an empty one. Where there are no frames, they are that already.
pub fn sound(
    setup: Setup,
    clock: usize,
    least: usize,
    buf: &[u8],
    seen: &mut [u64],
    starts: &mut [u32],
) -> Walk
    requires setup_value { (in_limits (setup_of setup) ≡ true) × ((clock < setup.modulus) × Recent (setup_of setup) least) }
    requires setup_in_bounds { (holdback_size (setup_of setup) ≤ length buf.now) × ((seen.old ≡ replicate table_length 0) × (starts.old ≡ all_front)) }
    ensures { Walked (setup_of setup) clock least buf.now result.sound result.count result.end seen.new starts.new }
{
    let count = splice::two_at(buf, 0);
    if depth(
        setup.n as usize,
        setup.epsilon as usize,
        setup.delta as usize,
    ) < count
    {
        return emptied();
    }
    if count == 0 {
        let sound = true;
        let end = 2;
        return Walk { sound, count, end };
    }
    let ceilings = ceilings_of(setup.n as usize, setup.epsilon as usize);
    walk_frames(setup, clock, least, &ceilings, buf, count, seen, starts)
}
