// 01: "It is sound if", by both pairs of limits: one walk over the frames, each judged once, its origin by one look-up.
ghost use Rattle.std.specs.Prelude.{◌≡◌, true, ◌+◌, ◌≤◌, ◌<◌, length, replicate};
ghost use Rattle.model.specs.Setup.{depth_of};
ghost use Rattle.model.specs.Frame.{two_at};
ghost use Rattle.model.specs.Schedule.{widest_of, own_limits};
ghost use Rattle.model.specs.Tick.{holdback_size};
ghost use Rattle.model.specs.Wider.{wider_reading, wider_passes};
ghost use Rattle.holdback.specs.Seen.{table_length};
ghost use Rattle.holdback.specs.Sound.{Recent};
ghost use Rattle.pairs.specs.Views.{schedule_of, Paired};
ghost use Rattle.widerqueue.specs.Sound.{bytes_from, frames_to, frame_at, start_of, follows, unsound, judged_at, Walking, Walked};

use crate::order::comes_before;
use crate::timing::timely;
use holdback::{Walk, clear_marks, emptied, has_mark, put_mark, rank_at, reading_of, slot};
use pairs::{Pairs, own_limits};
use setup::depth;
use widerframe::{check, frame_end};

// The frame before the one that is judged: where it starts, and its reading.
#[derive(Drop)]
struct Last {
    at: usize,
    reading: usize,
}

// Where a frame ends, 0 where it is not sound; its reading, and its place in the table of origins.
#[derive(Drop)]
struct Judged {
    end: usize,
    reading: usize,
    slot: usize,
}

fn unsound() -> Judged
    ensures { result ≡ unsound }
{
    Judged {
        end: 0,
        reading: 0,
        slot: 0,
    }
}

// "strictly in order": frame i, which starts at `at` and ends at `next`, comes after the one before it, if there is one.
fn in_order(
    p: Pairs,
    clock: usize,
    least: usize,
    buf: &[u8],
    seen: &[u64],
    i: usize,
    last: Last,
    at: usize,
    next: usize,
    reading: usize,
) -> bool
    requires paired { Paired p × (clock < p.before.modulus) }
    requires walking { Walking (schedule_of p) clock least buf.now seen.now i last at }
    requires next_value { (next ≡ start_of (schedule_of p) buf.now (i + 1)) × ((next ≤ length buf.now) × (wider_passes (schedule_of p) (bytes_from (schedule_of p) buf.now at) ≡ true)) }
    requires reading_value { reading ≡ wider_reading (schedule_of p) clock (frame_at (schedule_of p) buf.now i) }
    ensures { result ≡ follows (schedule_of p) clock (frames_to (schedule_of p) buf.now i) (frame_at (schedule_of p) buf.now i) }
{
    if i == 0 {
        return true;
    }
    let from = last.at;
    comes_before(p, last.reading, &buf[from..at], reading, &buf[at..next])
}

// Judges frame i, which starts at `at`; `last` is the one before it. Once it passes 10 to 12, its r is read, once for the tests behind that.
fn judge_at(
    p: Pairs,
    clock: usize,
    least: usize,
    buf: &[u8],
    seen: &[u64],
    i: usize,
    last: Last,
    at: usize,
) -> Judged
    requires paired { Paired p × ((clock < p.before.modulus) × Recent (own_limits (schedule_of p)) least) }
    requires walking { Walking (schedule_of p) clock least buf.now seen.now i last at }
    ensures { result ≡ judged_at (schedule_of p) clock least buf.now i }
{
    let next = at + frame_end(p, &buf[at..]);
    if buf.len() < next {
        return unsound();
    }
    if check(p, &buf[at..next]) != 0 {
        return unsound();
    }
    let own = own_limits(p);
    let reading = reading_of(own, clock, &buf[at..next]);
    let rank = rank_at(reading, &buf[at..next]);
    if !timely(p, least, reading + rank.c) {
        return unsound();
    }
    if !in_order(p, clock, least, buf, seen, i, last, at, next, reading) {
        return unsound();
    }
    let slot = slot(own, rank);
    if has_mark(slot, seen) {
        return unsound();
    }
    Judged {
        end: next,
        reading,
        slot,
    }
}

// The walk. The table of origins gets those of the frames so far; at a frame that is not sound it becomes what it was.
fn walk_frames(
    p: Pairs,
    clock: usize,
    least: usize,
    buf: &[u8],
    count: usize,
    seen: &mut [u64],
) -> Walk
    requires paired { Paired p × ((clock < p.before.modulus) × Recent (own_limits (schedule_of p)) least) }
    requires in_bounds { (2 ≤ length buf.now) × ((count ≡ two_at buf.now 0) × (count ≤ depth_of (own_limits (schedule_of p)))) }
    requires seen_value { seen.old ≡ replicate table_length 0 }
    ensures { Walked (schedule_of p) clock least buf.now result.sound result.count result.end seen.new }
{
    let mut i = 0;
    let mut at = 2;
    let mut last = Last { at: 2, reading: 0 };
    while i < count {
        let judged = judge_at(p, clock, least, buf, seen, i, last, at);
        let next = judged.end;
        if next == 0 {
            clear_marks(seen);
            return emptied();
        }
        put_mark(judged.slot, seen);
        last = Last {
            at,
            reading: judged.reading,
        };
        at = next;
        i += 1;
    }
    Walk {
        sound: true,
        count,
        end: at,
    }
}

// 01: "It is sound if it holds at most n(δ + 3ε) frames that pass 10 to 12, strictly in order, no station and r twice, each
// sum at most ε − 1 past v and each sum + δ + ε not before v", by the limits of v and the due clocks of both pairs, here not before the least
// due clock allowed. The table of origins is lent empty, and comes back for the frames of the queue, or of an empty one.
pub fn sound(p: Pairs, clock: usize, least: usize, buf: &[u8], seen: &mut [u64]) -> Walk
    requires paired { Paired p × ((clock < p.before.modulus) × Recent (own_limits (schedule_of p)) least) }
    requires p_in_bounds { (holdback_size (widest_of (schedule_of p)) ≤ length buf.now) × (seen.old ≡ replicate table_length 0) }
    ensures { Walked (schedule_of p) clock least buf.now result.sound result.count result.end seen.new }
{
    let own = own_limits(p);
    let count = splice::two_at(buf, 0);
    if depth(own.n as usize, own.epsilon as usize, own.delta as usize) < count {
        return emptied();
    }
    walk_frames(p, clock, least, buf, count, seen)
}
