// Changes of a hold-back queue in its buffer: emptying, placing a frame, cutting off a prefix, with zeros behind the others or without.
ghost use Rattle.std.specs.Prelude.{◌≡◌, ℕ, ◌+◌, ◌-◌, ◌<◌, ◌≤◌, true, List, [], ◌++◌, length, take, drop};
ghost use Rattle.laws.specs.Lists.{overlay, insert_at};
ghost use Rattle.model.specs.Frame.{Frame, encode, decode, well_formed};
ghost use Rattle.model.specs.Holdback.{held, encode_frames, encode_holdback};
ghost use Rattle.holdback.specs.Queue.{Spans, Written};

// A place in a queue: the frames before it, and where it stands.
#[derive(Clone, Copy)]
pub struct Place {
    pub index: usize,
    pub at: usize,
}

// 01, tick 1: "An unsound shelf is emptied".
pub fn empty(buf: &mut [u8])
    requires { 2 ≤ length buf.old }
    ensures { buf.new ≡ encode_holdback (length buf.old) [] }
{
    let len = buf.len();
    splice::clear(buf, 0, len);
}

// 01, tick 3: "A taken frame goes on the shelf", at its place. Of the bytes behind the frames those that are not needed stay
// as they were. The frames that are there have any form, as long as they are written from the front on.
pub fn insert_frame(buf: &mut [u8], count: usize, end: usize, place: Place, frame: &[u8])
    requires { (2 ≤ place.at) × ((place.at ≤ end) × ((end + length frame.now ≤ length buf.old) × (count < 65535))) }
    ensures { (queue : List Frame) (f : Frame) → Written queue buf.old count end place.index place.at → encode f ≡ frame.now
        → buf.new ≡ overlay (encode_frames (insert_at place.index f queue)) buf.old }
{
    let at = place.at;
    splice::insert(buf, end, at, frame);
    splice::put_u16(buf, 0, count + 1);
}

// The same where the frames have 2ε counts.
pub fn put(epsilon: usize, buf: &mut [u8], count: usize, end: usize, place: Place, frame: &[u8])
    requires spans { Spans epsilon buf.old count end place.index place.at }
    requires frame_value { (well_formed epsilon frame.now ≡ true) × ((end + length frame.now ≤ length buf.old) × (count < 65535)) }
    ensures { buf.new
        ≡ overlay (encode_frames (insert_at place.index (decode epsilon frame.now) (held epsilon buf.old))) buf.old }
{
    insert_frame(buf, count, end, place, frame);
}

// 01, tick 6: the first frames of a queue are handed out behind those that already are: the number of all, and their bytes. `given`
// is the number of those, and where they end.
pub fn append_frames(buf: &[u8], prefix: Place, delivery: &mut [u8], given: Place)
    requires le_at { (2 ≤ prefix.at) × ((prefix.at ≤ length buf.now) × (2 ≤ given.at)) }
    requires at_in_bounds { (given.at + (prefix.at - 2) ≤ length delivery.old) × (given.index + prefix.index < 65536) }
    ensures { (queue first : List Frame) (count end : ℕ) → Written queue buf.now count end prefix.index prefix.at
        → Written first delivery.old given.index given.at given.index given.at
        → delivery.new ≡ overlay (encode_frames (first ++ take prefix.index queue)) delivery.old }
{
    let at = prefix.at;
    splice::put_u16(delivery, 0, given.index + prefix.index);
    splice::copy_into(delivery, given.at, &buf[2..at]);
}

// The same where the frames have 2ε counts.
pub fn append_prefix(
    epsilon: usize,
    buf: &[u8],
    count: usize,
    end: usize,
    prefix: Place,
    delivery: &mut [u8],
    given: Place,
)
    requires spans { Spans epsilon buf.now count end prefix.index prefix.at }
    requires spans_2 { Spans epsilon delivery.old given.index given.at given.index given.at }
    requires at_in_bounds { (given.at + (prefix.at - 2) ≤ length delivery.old) × (given.index + prefix.index < 65536) }
    ensures { delivery.new
        ≡ overlay (encode_frames (held epsilon delivery.old ++ take prefix.index (held epsilon buf.now))) delivery.old }
{
    append_frames(buf, prefix, delivery, given);
}

// The first frames of a queue leave it: the others move to the front. Of the bytes behind the frames those that are not needed stay
// as they were.
pub fn drop_frames(buf: &mut [u8], count: usize, end: usize, prefix: Place)
    requires le_at { (2 ≤ prefix.at) × ((prefix.at ≤ end) × (end ≤ length buf.old)) }
    requires index_le_count { (prefix.index ≤ count) × (count < 65536) }
    ensures { (queue : List Frame) → Written queue buf.old count end prefix.index prefix.at
        → buf.new ≡ overlay (encode_frames (drop prefix.index queue)) buf.old }
{
    let at = prefix.at;
    splice::move_left(buf, at, 2, end - at);
    splice::put_u16(buf, 0, count - prefix.index);
}

// The same where the frames have 2ε counts.
pub fn cut_front(epsilon: usize, buf: &mut [u8], count: usize, end: usize, prefix: Place)
    requires spans { Spans epsilon buf.old count end prefix.index prefix.at }
    requires count_bound { count < 65536 }
    ensures { buf.new
        ≡ overlay (encode_frames (drop prefix.index (held epsilon buf.old))) buf.old }
{
    drop_frames(buf, count, end, prefix);
}

// 01, tick 6: they leave the shelf; the others move to the front, "then zeros".
pub fn cut_frames(buf: &mut [u8], count: usize, end: usize, prefix: Place)
    requires le_at { (2 ≤ prefix.at) × ((prefix.at ≤ end) × (end ≤ length buf.old)) }
    requires index_le_count { (prefix.index ≤ count) × (count < 65536) }
    ensures { (queue : List Frame) → Written queue buf.old count end prefix.index prefix.at
        → buf.new ≡ encode_holdback (length buf.old) (drop prefix.index queue) }
{
    let at = prefix.at;
    let len = buf.len();
    drop_frames(buf, count, end, prefix);
    splice::clear(buf, end - (at - 2), len);
}

// The same where the frames have 2ε counts.
pub fn cut_prefix(epsilon: usize, buf: &mut [u8], count: usize, end: usize, prefix: Place)
    requires spans { Spans epsilon buf.old count end prefix.index prefix.at }
    requires count_bound { count < 65536 }
    ensures { buf.new
        ≡ encode_holdback (length buf.old) (drop prefix.index (held epsilon buf.old)) }
{
    cut_frames(buf, count, end, prefix);
}
