// Placing a frame in a queue of frames of both widths.
ghost use Rattle.std.specs.Prelude.{◌≡◌, true, ◌+◌, ◌≤◌, ◌<◌, length};
ghost use Rattle.laws.specs.Lists.{overlay, insert_at};
ghost use Rattle.model.specs.Holdback.{encode_frames};
ghost use Rattle.model.specs.Wider.{wider_formed, wider_decode, wider_held};
ghost use Rattle.pairs.specs.Views.{schedule_of};
ghost use Rattle.widerqueue.specs.Queue.{Spans};

use holdback::Place;
use pairs::Pairs;

// 01, tick 3: "A taken frame goes on the shelf", at its place. Of the bytes behind the frames those that are not needed stay
// as they were.
pub fn put(p: Pairs, buf: &mut [u8], count: usize, end: usize, place: Place, frame: &[u8])
    requires spans { Spans (schedule_of p) buf.old count end place.index place.at }
    requires frame_value { (wider_formed (schedule_of p) frame.now ≡ true) × ((end + length frame.now ≤ length buf.old) × (count < 65535)) }
    ensures { buf.new
        ≡ overlay (encode_frames (insert_at place.index (wider_decode (schedule_of p) frame.now) (wider_held (schedule_of p) buf.old))) buf.old }
{
    holdback::insert_frame(buf, count, end, place, frame);
}
