// The place of a frame in a sound queue: from where its sum starts, one by one.
ghost use Rattle.std.specs.Prelude.{◌≡◌, ◌<◌, ◌≤◌, true, length};
ghost use Rattle.model.specs.Setup.{in_limits};
ghost use Rattle.model.specs.Frame.{two_at, decode};
ghost use Rattle.model.specs.Order.{reading_of};
ghost use Rattle.model.specs.Holdback.{held, sound_holdback};
ghost use Rattle.model.specs.Judge.{place_for};
ghost use Rattle.setup.specs.Views.{setup_of};
ghost use Rattle.holdback.specs.Queue.{Stands};
ghost use Rattle.holdback.specs.Sound.{fits};
ghost use Rattle.holdback.specs.Starts.{starts_of};

use crate::change::Place;
use crate::compare::{frame_before, rank_at};
use crate::starts::START_UNIT;
use crate::timing::rank_wait;
use setup::Setup;

// 01: "its place on the shelf": the shelved frames that come before it, and where the place stands. 02, 2.3: the frame's r is "read near v
// once, before the search", which is handed the reading; of each shelved frame that it passes the rank is read once.
pub fn place_for(
    setup: Setup,
    clock: usize,
    buf: &[u8],
    count: usize,
    starts: &[u32],
    frame: &[u8],
    reading: usize,
) -> Place
    requires setup_value { (in_limits (setup_of setup) ≡ true) × (clock < setup.modulus) }
    requires buf_value { (sound_holdback (setup_of setup) clock setup.modulus buf.now ≡ true) × ((2 ≤ length buf.now) × (count ≡ two_at buf.now 0)) }
    requires starts_value { starts.now ≡ starts_of (setup_of setup) clock buf.now }
    requires frame_value { (fits (setup_of setup) clock setup.modulus frame.now ≡ true) × (reading ≡ reading_of (setup_of setup) clock (decode setup.epsilon frame.now)) }
    ensures { Stands setup.epsilon buf.now (place_for (setup_of setup) clock (held setup.epsilon buf.now) (decode setup.epsilon frame.now)) result.index result.at }
{
    let epsilon = setup.epsilon as usize;
    let rank = rank_at(reading, frame);
    let start = starts[rank_wait(setup, rank)] as usize;
    let mut i = start / START_UNIT;
    let mut at = start % START_UNIT;
    while i < count {
        let next = at + frame::frame_end(epsilon, &buf[at..]);
        if !frame_before(setup, clock, &buf[at..next], rank, frame) {
            return Place { index: i, at };
        }
        at = next;
        i += 1;
    }
    Place { index: i, at }
}
