// The writer alone: any setup, numbers, payload and buffer get an answer; a refusal writes nothing.
ghost use Rattle.std.specs.Prelude.{◌≡◌, ◌∷◌, ◌≤◌, ◌<◌, length};
ghost use Rattle.laws.specs.Lists.{overlay};
ghost use Rattle.model.specs.Frame.{section};
ghost use Rattle.model.specs.Question.{first_no};
ghost use Rattle.model.specs.Codec.{frame_of};
ghost use Rattle.model.specs.Long.{low_first, long_write_questions, long_write};
ghost use Rattle.setup.specs.Views.{setup_of};
ghost use Rattle.timestamp.specs.Views.{stamp_of};
ghost use Rattle.frame.specs.Answers.{write_answer};
ghost use Rattle.longframe.specs.Lay.{LongRoom, LongLaid};

use crate::form::{LONGER, NODE_SIZE, OVERHEAD, R_AT, STATION_AT};
use crate::limits::{BOUND, valid_for};
use frame::{Written, check_contents, lay_later};
use setup::{BAD_BUFFERS, BAD_SETUP, Setup};
use timestamp::Timestamp;

// 01: "A frame being built has 71 bytes of its own"; 02: "lengths follow": six bytes more.
const OWN_BYTES: usize = 77;

// 02: the first section, "9 (station, r in eight bytes, low first)", laid down at the front.
fn put_node(out: &mut [u8], station: usize, r: usize)
    requires { (10 ≤ length out.old) × (station < 256) }
    ensures { out.new ≡ overlay (section (station ∷ low_first 8 r)) out.old }
{
    out[0] = NODE_SIZE;
    out[STATION_AT] = station as u8;
    splice::put_u64(out, R_AT, r);
}

// The three sections, one behind the other: says how long the frame is. The later ones stand as a station's, six bytes on.
fn build(epsilon: usize, station: usize, stamp: Timestamp, payload: &[u8], out: &mut [u8]) -> usize
    requires { LongRoom epsilon station (stamp_of stamp) payload.now out.old }
    ensures { LongLaid result out.new (frame_of epsilon station (stamp_of stamp) payload.now) out.old }
{
    put_node(out, station, stamp.r);
    LONGER + lay_later(epsilon, stamp, payload, &mut out[LONGER..])
}

// The writer with no questions asked, for callers that have answered them: builds the frame in bytes of its own, lays it down whole and says
// how long it is.
pub fn lay(
    epsilon: usize,
    station: usize,
    stamp: Timestamp,
    payload: &[u8],
    out: &mut [u8],
) -> usize
    requires { LongRoom epsilon station (stamp_of stamp) payload.now out.old }
    ensures { LongLaid result out.new (frame_of epsilon station (stamp_of stamp) payload.now) out.old }
{
    let mut built = [0u8; OWN_BYTES];
    let size = build(epsilon, station, stamp, payload, &mut built);
    splice::copy_into(out, 0, &built[..size]);
    size
}

// 01: "the writer asks 1, 4, 11, 12, then 6 if its buffer is shorter than this frame": the number of the first no, or 0.
fn check_write(
    setup: Setup,
    own: u32,
    station: usize,
    stamp: Timestamp,
    payload: &[u8],
    out: &[u8],
) -> u8
    ensures { result ≡ first_no (long_write_questions (setup_of setup) own (frame_of setup.epsilon station (stamp_of stamp) payload.now) out.now) }
{
    if !valid_for(setup, own) {
        return BAD_SETUP;
    }
    let n = setup.n as usize;
    let epsilon = setup.epsilon as usize;
    let contents = check_contents(n, epsilon, BOUND, station, stamp, payload);
    if contents != 0 {
        return contents;
    }
    if out.len() < OVERHEAD + 2 * epsilon + payload.len() {
        return BAD_BUFFERS;
    }
    0
}

// The writer.
pub fn write(
    setup: Setup,
    own: u32,
    station: usize,
    stamp: Timestamp,
    payload: &[u8],
    out: &mut [u8],
) -> Written
    ensures { write_answer result out.new
        ≡ long_write (setup_of setup) own station (stamp_of stamp) payload.now out.old }
{
    let number = check_write(setup, own, station, stamp, payload, out);
    if number != 0 {
        return Written { number, size: 0 };
    }
    let size = lay(setup.epsilon as usize, station, stamp, payload, out);
    Written { number: 0, size }
}
