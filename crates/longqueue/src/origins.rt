// Origins: "that station and r", in an engine's queue by a search through all of it.
ghost use Rattle.std.specs.Prelude.{◌≡◌, ℕ, ◌≤◌, length};
ghost use Rattle.laws.specs.Lists.{any, apart};
ghost use Rattle.model.specs.Frame.{two_at};
ghost use Rattle.model.specs.Holdback.{same_origin};
ghost use Rattle.model.specs.Long.{long_formed, long_decode, long_held};
ghost use Rattle.longqueue.specs.Queue.{frames_from, Standing};

// Two frames have the same origin.
fn same_origin(f: &[u8], g: &[u8]) -> bool
    requires { (10 ≤ length f.now) × (10 ≤ length g.now) }
    ensures { (epsilon : ℕ) → result ≡ same_origin (long_decode epsilon f.now) (long_decode epsilon g.now) }
{
    if longframe::station_of(f) != longframe::station_of(g) {
        return false;
    }
    longframe::r_of(f) == longframe::r_of(g)
}

// One of the frames that stand from `at` on, `left` of them, has the frame's origin.
pub fn origin_among(epsilon: usize, buf: &[u8], at: usize, left: usize, frame: &[u8]) -> bool
    requires epsilon_bound { (epsilon ≤ 16) × (10 ≤ length frame.now) }
    requires standing { Standing epsilon (long_formed epsilon) buf.now at left }
    ensures { result ≡ any (same_origin (long_decode epsilon frame.now)) (frames_from epsilon buf.now at left) }
{
    let mut from = at;
    let mut rest = left;
    while 0 < rest {
        let next = from + longframe::frame_end(epsilon, &buf[from..]);
        if same_origin(frame, &buf[from..next]) {
            return true;
        }
        from = next;
        rest -= 1;
    }
    false
}

// 01, 16: the frame's origin is on the shelf.
pub fn repeats(epsilon: usize, buf: &[u8], count: usize, frame: &[u8]) -> bool
    requires epsilon_bound { (epsilon ≤ 16) × (10 ≤ length frame.now) }
    requires count_value { (count ≡ two_at buf.now 0) × Standing epsilon (long_formed epsilon) buf.now 2 count }
    ensures { result ≡ any (same_origin (long_decode epsilon frame.now)) (long_held epsilon buf.now) }
{
    origin_among(epsilon, buf, 2, count, frame)
}

// 01: "no station and r twice": none of the frames has the origin of a later one.
pub fn all_apart(epsilon: usize, buf: &[u8], count: usize) -> bool
    requires epsilon_bound { epsilon ≤ 16 }
    requires standing { Standing epsilon (long_formed epsilon) buf.now 2 count }
    ensures { result ≡ apart same_origin (frames_from epsilon buf.now 2 count) }
{
    let mut at = 2;
    let mut left = count;
    while 0 < left {
        let next = at + longframe::frame_end(epsilon, &buf[at..]);
        left -= 1;
        if origin_among(epsilon, buf, next, left, &buf[at..next]) {
            return false;
        }
        at = next;
    }
    true
}
