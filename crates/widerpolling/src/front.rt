// The front of a sound queue with frames of both widths: the frame there is due soonest.
ghost use Rattle.std.specs.Prelude.{◌≡◌, ◌≤◌, ◌<◌, length};
ghost use Rattle.model.specs.Frame.{two_at};
ghost use Rattle.model.specs.Wider.{wider_held};
ghost use Rattle.model.specs.WiderCalls.{wider_next_due};
ghost use Rattle.pairs.specs.Views.{schedule_of, Paired};
ghost use Rattle.polling.specs.Answers.{next_of};
ghost use Rattle.widerqueue.specs.Overdue.{SoundBy};

use holdback::reading_clock;
use pairs::{Pairs, own_limits};
use polling::Next;
use widerframe::frame_end;
use widerqueue::due_of;

// 02: "the next due clock, or none, from the frame at the front".
pub fn next_due(p: Pairs, clock: usize, buf: &[u8], count: usize) -> Next
    requires paired { Paired p × (clock < p.before.modulus) }
    requires sound_by { SoundBy (schedule_of p) clock buf.now × ((2 ≤ length buf.now) × (count ≡ two_at buf.now 0)) }
    ensures { next_of result ≡ wider_next_due (schedule_of p) clock (wider_held (schedule_of p) buf.now) }
{
    if count == 0 {
        return Next::Nothing;
    }
    let end = 2 + frame_end(p, &buf[2..]);
    let due = due_of(p, clock, &buf[2..end]);
    Next::At(reading_clock(own_limits(p), clock, due))
}
