// The place of a frame in a sound queue: from the front, one by one.
ghost use Rattle.std.specs.Prelude.{◌≡◌, true, ◌≤◌, ◌<◌, length};
ghost use Rattle.model.specs.Frame.{two_at};
ghost use Rattle.model.specs.Wider.{wider_reading, wider_decode, wider_held, wider_passes, wider_place, wider_sound_holdback};
ghost use Rattle.pairs.specs.Views.{schedule_of, Paired};
ghost use Rattle.widerqueue.specs.Queue.{Stands};

use crate::order::comes_before;
use holdback::{Place, reading_of};
use pairs::{Pairs, own_limits};
use widerframe::frame_end;

// 01: "its place on the shelf": the shelved frames that come before it, and where the place stands. The frame's r is read already.
pub fn place_for(
    p: Pairs,
    clock: usize,
    buf: &[u8],
    count: usize,
    frame: &[u8],
    reading: usize,
) -> Place
    requires paired { Paired p × (clock < p.before.modulus) }
    requires buf_value { (wider_sound_holdback (schedule_of p) clock p.before.modulus buf.now ≡ true) × ((2 ≤ length buf.now) × (count ≡ two_at buf.now 0)) }
    requires frame_value { (wider_passes (schedule_of p) frame.now ≡ true) × (reading ≡ wider_reading (schedule_of p) clock (wider_decode (schedule_of p) frame.now)) }
    ensures { Stands (schedule_of p) buf.now (wider_place (schedule_of p) clock (wider_held (schedule_of p) buf.now) (wider_decode (schedule_of p) frame.now)) result.index result.at }
{
    let own = own_limits(p);
    let mut i = 0;
    let mut at = 2;
    while i < count {
        let next = at + frame_end(p, &buf[at..]);
        let other = reading_of(own, clock, &buf[at..next]);
        if !comes_before(p, other, &buf[at..next], reading, frame) {
            return Place { index: i, at };
        }
        at = next;
        i += 1;
    }
    Place { index: i, at }
}
