// 02, 2.2: "Frames whose due clock lies before v go out before the bundle is judged". They are the front of a sound queue.
ghost use Rattle.std.specs.Prelude.{◌≡◌, ◌≤◌, ◌<◌, length, drop};
ghost use Rattle.model.specs.Frame.{two_at};
ghost use Rattle.model.specs.Schedule.{own_limits};
ghost use Rattle.model.specs.Wider.{wider_held};
ghost use Rattle.holdback.specs.Seen.{seen_table};
ghost use Rattle.pairs.specs.Views.{schedule_of, Paired};
ghost use Rattle.widerqueue.specs.Queue.{Extent};
ghost use Rattle.widerqueue.specs.Overdue.{SoundBy, Released};

use crate::due::front_before;
use holdback::{Place, clear_mark, rank_of};
use pairs::{Pairs, own_limits};
use widerframe::frame_end;

// Takes the marks of the first `index` frames away.
fn unmark(p: Pairs, clock: usize, buf: &[u8], index: usize, seen: &mut [u64])
    requires paired { Paired p × (clock < p.before.modulus) }
    requires sound_by { SoundBy (schedule_of p) clock buf.now × ((2 ≤ length buf.now) × (index ≤ two_at buf.now 0)) }
    requires seen_value { seen.old ≡ seen_table (own_limits (schedule_of p)) clock (wider_held (schedule_of p) buf.now) }
    ensures { seen.new ≡ seen_table (own_limits (schedule_of p)) clock (drop index (wider_held (schedule_of p) buf.now)) }
{
    let own = own_limits(p);
    let mut i = 0;
    let mut at = 2;
    while i < index {
        let next = at + frame_end(p, &buf[at..]);
        clear_mark(own, rank_of(own, clock, &buf[at..next]), seen);
        at = next;
        i += 1;
    }
}

// Hands out the frames that are due before v, the first ones of a delivery: their number, and where they end in it. They leave the queue and its
// table of origins.
pub fn release(
    p: Pairs,
    clock: usize,
    buf: &mut [u8],
    count: usize,
    end: usize,
    seen: &mut [u64],
    delivery: &mut [u8],
) -> Place
    requires paired { Paired p × (clock < p.before.modulus) }
    requires sound_by { SoundBy (schedule_of p) clock buf.old × ((2 ≤ length buf.old) × Extent (schedule_of p) buf.old count end) }
    requires seen_value { (seen.old ≡ seen_table (own_limits (schedule_of p)) clock (wider_held (schedule_of p) buf.old)) × (length buf.old ≤ length delivery.old) }
    ensures { Released (schedule_of p) clock buf.old delivery.old result.index result.at
        buf.new seen.new delivery.new }
{
    let overdue = front_before(p, clock, p.before.modulus as usize, buf, count);
    splice::put_u16(delivery, 0, 0);
    holdback::append_frames(buf, overdue, delivery, Place { index: 0, at: 2 });
    unmark(p, clock, buf, overdue.index, seen);
    holdback::drop_frames(buf, count, end, overdue);
    overdue
}
