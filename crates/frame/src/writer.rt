// The writer alone: any setup, numbers, payload and buffer get an answer; a refusal writes nothing.
ghost use Rattle.std.specs.Prelude.{◌≡◌, ◌∷◌, ◌+◌, ◌*◌, ◌≤◌, ◌<◌, length};
ghost use Rattle.laws.specs.Lists.{overlay};
ghost use Rattle.model.specs.Frame.{section, two_bytes};
ghost use Rattle.model.specs.Timestamp.{trimmed};
ghost use Rattle.model.specs.Question.{first_no};
ghost use Rattle.model.specs.Codec.{frame_of, write_questions};
ghost use Rattle.model.specs.Codec as codec;
ghost use Rattle.splice.specs.Bytes.{pasted};
ghost use Rattle.setup.specs.Views.{setup_of};
ghost use Rattle.timestamp.specs.Views.{stamp_of};
ghost use Rattle.frame.specs.Lay.{Room, Laid, LaterRoom, LaterLaid, contents_questions};
ghost use Rattle.frame.specs.Answers.{write_answer};

use crate::form::{C_AT, COUNTS_AT, NODE_SIZE, OVERHEAD, R_AT, STAMP_AT, STATION_AT};
use setup::{
    BAD_BUFFERS, BAD_PAYLOAD, BAD_RANGE, BAD_SETUP, BAD_STAMP, LONGEST_PAYLOAD, Setup, valid_for,
};
use timestamp::Timestamp;

// 01: "A frame being built has 71 bytes of its own": the longest, 39 + 2ε at ε 16, fits in them.
const OWN_BYTES: usize = 71;

// 01: the first section, "3 (station, r in two bytes)", laid down at the front.
fn put_node(out: &mut [u8], station: usize, r: usize)
    requires { (4 ≤ length out.old) × ((station < 256) × (r < 65536)) }
    ensures { out.new ≡ overlay (section (station ∷ two_bytes r)) out.old }
{
    out[0] = NODE_SIZE;
    out[STATION_AT] = station as u8;
    splice::put_u16(out, R_AT, r);
}

// 01: the second section, "1 + 2ε (c, then counts from offset −ε up)", laid down after the first.
fn put_stamp(out: &mut [u8], epsilon: usize, stamp: Timestamp)
    requires { (epsilon ≤ 16) × ((6 + 2 * epsilon ≤ length out.old) × (stamp.c < 256)) }
    ensures { out.new ≡ pasted out.old 4 (section (stamp.c ∷ (trimmed epsilon (stamp_of stamp)).kn)) }
{
    let width = 2 * epsilon;
    let kn = stamp.kn;
    out[STAMP_AT] = (1 + width) as u8;
    out[C_AT] = stamp.c as u8;
    splice::copy_into(out, COUNTS_AT, &kn[..width]);
}

// 01: the third section, "0 to 32 (ticket)", laid down at the front of what is left of the outgoing buffer.
fn put_payload(rest: &mut [u8], payload: &[u8])
    requires { (1 + length payload.now ≤ length rest.old) × (length payload.now < 256) }
    ensures { rest.new ≡ overlay (section payload.now) rest.old }
{
    rest[0] = payload.len() as u8;
    splice::copy_into(rest, 1, payload);
}

// The second and the third section, laid down behind the four bytes of the first: says where they end.
pub fn lay_later(epsilon: usize, stamp: Timestamp, payload: &[u8], out: &mut [u8]) -> usize
    requires { LaterRoom epsilon (stamp_of stamp) payload.now out.old }
    ensures { LaterLaid result out.new (frame_of epsilon 0 (stamp_of stamp) payload.now) out.old }
{
    put_stamp(out, epsilon, stamp);
    let at = COUNTS_AT + 2 * epsilon;
    put_payload(&mut out[at..], payload);
    at + 1 + payload.len()
}

// The three sections, one behind the other: says how long the frame is.
fn build(epsilon: usize, station: usize, stamp: Timestamp, payload: &[u8], out: &mut [u8]) -> usize
    requires { Room epsilon station (stamp_of stamp) payload.now out.old }
    ensures { Laid result out.new (frame_of epsilon station (stamp_of stamp) payload.now) out.old }
{
    put_node(out, station, stamp.r);
    lay_later(epsilon, stamp, payload, out)
}

// The writer with no questions asked, for callers that have answered them: builds the frame in bytes of its own, lays it down whole and says
// how long it is.
pub fn lay(
    epsilon: usize,
    station: usize,
    stamp: Timestamp,
    payload: &[u8],
    out: &mut [u8],
) -> usize
    requires { Room epsilon station (stamp_of stamp) payload.now out.old }
    ensures { Laid result out.new (frame_of epsilon station (stamp_of stamp) payload.now) out.old }
{
    let mut built = [0u8; OWN_BYTES];
    let size = build(epsilon, station, stamp, payload, &mut built);
    splice::copy_into(out, 0, &built[..size]);
    size
}

// What the writer answers.
#[derive(Drop)]
pub struct Written {
    // 0, or the number of the first no
    pub number: u8,
    // how many bytes it wrote
    pub size: usize,
}

// 01, 4, 11 and 12, of what is to be written: the number of the first no, or 0. `bound` is what r must be below.
pub fn check_contents(
    n: usize,
    epsilon: usize,
    bound: usize,
    station: usize,
    stamp: Timestamp,
    payload: &[u8],
) -> u8
    requires { (n ≤ 16) × ((1 ≤ epsilon) × (epsilon ≤ 16)) }
    ensures { result ≡ first_no (contents_questions n epsilon bound (frame_of epsilon station (stamp_of stamp) payload.now)) }
{
    if LONGEST_PAYLOAD < payload.len() {
        return BAD_PAYLOAD;
    }
    if n <= station {
        return BAD_RANGE;
    }
    if bound <= stamp.r {
        return BAD_RANGE;
    }
    if !stamp.is_sound(n, epsilon) {
        return BAD_STAMP;
    }
    0
}

// 01: "the writer asks 1, 4, 11, 12, then 6 if its buffer is shorter than this frame": the number of the first no, or 0.
fn check_write(
    setup: Setup,
    own: u32,
    station: usize,
    stamp: Timestamp,
    payload: &[u8],
    out: &[u8],
) -> u8
    ensures { result ≡ first_no (write_questions (setup_of setup) own station (stamp_of stamp) payload.now out.now) }
{
    if !valid_for(setup, own) {
        return BAD_SETUP;
    }
    let n = setup.n as usize;
    let epsilon = setup.epsilon as usize;
    let modulus = setup.modulus as usize;
    let contents = check_contents(n, epsilon, modulus, station, stamp, payload);
    if contents != 0 {
        return contents;
    }
    if out.len() < OVERHEAD + 2 * epsilon + payload.len() {
        return BAD_BUFFERS;
    }
    0
}

// The writer.
pub fn write(
    setup: Setup,
    own: u32,
    station: usize,
    stamp: Timestamp,
    payload: &[u8],
    out: &mut [u8],
) -> Written
    ensures { write_answer result out.new
        ≡ codec.write (setup_of setup) own station (stamp_of stamp) payload.now out.old }
{
    let number = check_write(setup, own, station, stamp, payload, out);
    if number != 0 {
        return Written { number, size: 0 };
    }
    let size = lay(setup.epsilon as usize, station, stamp, payload, out);
    Written { number: 0, size }
}
