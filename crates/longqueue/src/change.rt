// Changes of an engine's queue in its buffer: opening it for a tick, and a taken frame behind the last.
ghost use Rattle.std.specs.Prelude.{◌≡◌, true, [], ◌∷◌, ◌++◌, ◌+◌, ◌<◌, length};
ghost use Rattle.laws.specs.Lists.{overlay};
ghost use Rattle.model.specs.Long.{long_bound, long_limits, long_most, long_decode, long_held, long_passes, long_encode_frames, long_holdback_size};
ghost use Rattle.setup.specs.Views.{setup_of};
ghost use Rattle.longqueue.specs.Queue.{Extent};
ghost use Rattle.longqueue.specs.Sound.{Opening};

use crate::soundness::sound;
use setup::Setup;

// What opening a queue answers: 2 where it had to be emptied, else 0, how many frames there are, and where they end.
#[derive(Drop)]
pub struct Opened {
    pub repair: u8,
    pub count: usize,
    pub end: usize,
}

// 01, tick 1: "An unsound shelf is emptied".
pub fn open(setup: Setup, clock: usize, least: usize, buf: &mut [u8]) -> Opened
    requires setup_value { (long_limits (setup_of setup) ≡ true) × (clock < long_bound) }
    requires buf_len { length buf.old ≡ long_holdback_size (setup_of setup) }
    ensures { Opening (setup_of setup) clock least buf.old buf.new result.repair result.count result.end }
{
    let walk = sound(setup, clock, least, buf);
    if walk.sound {
        return Opened {
            repair: 0,
            count: walk.count,
            end: walk.end,
        };
    }
    holdback::empty(buf);
    Opened {
        repair: 2,
        count: 0,
        end: 2,
    }
}

// 01, tick 3: "A taken frame goes on the shelf"; 02, 2.9: "in the order heard", so behind the last. Of the bytes behind the frames those
// that are not needed stay as they were.
pub fn append(setup: Setup, buf: &mut [u8], count: usize, end: usize, frame: &[u8])
    requires setup_value { (long_limits (setup_of setup) ≡ true) × Extent (setup_of setup) buf.old count end }
    requires frame_value { (long_passes (setup_of setup) frame.now ≡ true) × (count < long_most) }
    ensures buffer { buf.new
        ≡ overlay (long_encode_frames (long_held setup.epsilon buf.old ++ (long_decode setup.epsilon frame.now ∷ []))) buf.old }
    ensures held { long_held setup.epsilon buf.new ≡ long_held setup.epsilon buf.old ++ (long_decode setup.epsilon frame.now ∷ []) }
    ensures known { Extent (setup_of setup) buf.new (count + 1) (end + length frame.now) }
{
    splice::copy_into(buf, end, frame);
    splice::put_u16(buf, 0, count + 1);
}
