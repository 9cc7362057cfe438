// What is due: a prefix of a sound queue.
ghost use Rattle.std.specs.Prelude.{◌≡◌, true, not, ◌++◌, ◌*◌, ◌-◌, ◌≤◌, ◌<◌, length};
ghost use Rattle.laws.specs.Lists.{select, overlay};
ghost use Rattle.model.specs.Frame.{two_at};
ghost use Rattle.model.specs.Holdback.{encode_frames, encode_holdback};
ghost use Rattle.model.specs.Schedule.{widest_of, own_limits};
ghost use Rattle.model.specs.Tick.{holdback_size};
ghost use Rattle.model.specs.Wider.{wider_held, wider_sound_holdback, wider_due_now};
ghost use Rattle.pairs.specs.Views.{schedule_of, Paired};
ghost use Rattle.widerqueue.specs.Queue.{Extent, Spans, Stands, frames_before};
ghost use Rattle.widerqueue.specs.Overdue.{SoundBy};

use crate::timing::due_of;
use holdback::Place;
use pairs::Pairs;
use widerframe::frame_end;

// The frames at the front that are due before a limit, which is a reading near v as their due clocks are.
pub fn front_before(p: Pairs, clock: usize, limit: usize, buf: &[u8], count: usize) -> Place
    requires paired { Paired p × (clock < p.before.modulus) }
    requires sound_by { SoundBy (schedule_of p) clock buf.now × ((2 ≤ length buf.now) × (count ≡ two_at buf.now 0)) }
    ensures { Stands (schedule_of p) buf.now (frames_before (schedule_of p) clock limit buf.now) result.index result.at }
{
    let mut i = 0;
    let mut at = 2;
    while i < count {
        let next = at + frame_end(p, &buf[at..]);
        if limit <= due_of(p, clock, &buf[at..next]) {
            return Place { index: i, at };
        }
        at = next;
        i += 1;
    }
    Place { index: i, at }
}

// 01, tick 6: every frame that is due at v "is handed out, in order, and leaves the shelf", behind those that are handed out already:
// `given` is their number, and where they end. Answers how many are due at v.
pub fn cut_due(
    p: Pairs,
    clock: usize,
    buf: &mut [u8],
    count: usize,
    end: usize,
    delivery: &mut [u8],
    given: Place,
) -> usize
    requires paired { Paired p × (clock < p.before.modulus) }
    requires buf_value { (wider_sound_holdback (schedule_of p) clock p.before.modulus buf.old ≡ true) × ((2 ≤ length buf.old) × Extent (schedule_of p) buf.old count end) }
    requires p_in_bounds { holdback_size (widest_of (schedule_of p)) ≤ length delivery.old }
    requires spans { Spans (schedule_of p) delivery.old given.index given.at given.index given.at
        × (given.index ≤ (own_limits (schedule_of p)).n * (2 * (own_limits (schedule_of p)).epsilon - 2)) }
    ensures value { result ≡ length (select (wider_due_now (schedule_of p) clock) (wider_held (schedule_of p) buf.old)) }
    ensures buf_after { buf.new
        ≡ encode_holdback (length buf.old) (select (λ f. not (wider_due_now (schedule_of p) clock f)) (wider_held (schedule_of p) buf.old)) }
    ensures delivery_after { delivery.new
        ≡ overlay (encode_frames (wider_held (schedule_of p) delivery.old ++ select (wider_due_now (schedule_of p) clock) (wider_held (schedule_of p) buf.old))) delivery.old }
{
    let limit = p.before.modulus as usize + 1;
    let due = front_before(p, clock, limit, buf, count);
    holdback::append_frames(buf, due, delivery, given);
    holdback::cut_frames(buf, count, end, due);
    due.index
}
