// The newest counts of a frame as numbers, eight at a time, so that one look at a number stands for a look at each of them.
ghost use Rattle.std.specs.Prelude.{◌≡◌, ◌*◌, ◌-◌, ◌≤◌, ◌<◌, length};
ghost use Rattle.model.specs.Frame.{counts_of, payload_count_at};
ghost use Rattle.frame.specs.Newest.{taken, newest_from};

use crate::form::COUNTS_AT;
use splice::eight_at;

// How many of eight bytes are none of the ε newest counts, where they end at the k-th newest; in bits.
fn left_out(epsilon: usize, k: usize) -> usize
    requires { (epsilon ≤ 16) × (k < epsilon) }
    ensures { result ≡ 8 * (8 - taken epsilon k) }
{
    if epsilon < 8 + k {
        return 8 * (8 + k - epsilon);
    }
    0
}

// The ε newest counts from the k-th on, eight of them at most, as one number, the newest the highest. The newest is at offset c.
pub fn newest_counts(epsilon: usize, c: usize, k: usize, s: &[u8]) -> u64
    requires epsilon_bound { (epsilon ≤ 16) × (payload_count_at epsilon ≤ length s.now) }
    requires c_lt_epsilon { (c < epsilon) × (k < epsilon) }
    ensures { result ≡ newest_from epsilon c k (counts_of epsilon s.now) }
{
    eight_at(s, COUNTS_AT + epsilon + c - 7 - k) >> left_out(epsilon, k)
}
