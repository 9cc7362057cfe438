// Counts of one half width placed among those of another; 02: "missing counts being 0".
ghost use Rattle.std.specs.Prelude.{◌≡◌, ◌*◌, ◌≤◌, ◌^◌, length, take};
ghost use Rattle.laws.specs.Lists.{tab, padded};
ghost use Rattle.model.specs.Setup.{width, widest};
ghost use Rattle.model.specs.Timestamp.{trimmed, widened};
ghost use Rattle.model.specs.Wider.{step_into, absorb_wide};
ghost use Rattle.timestamp.specs.Views.{stamp_of, of_counts};
ghost use Rattle.widerstamp.specs.Placed.{larger_beside};

use timestamp::{Timestamp, larger_lead, raise};

// Lays counts of a half width, whose r stands at a reading, over the own 2ε, which are placed relative to v at `modulus`, and keeps the larger of each
// two.
fn raise_beside(
    own: [u8; Timestamp::WIDTH],
    epsilon: usize,
    modulus: usize,
    other: &[u8],
    half: usize,
    reading: usize,
) -> [u8; Timestamp::WIDTH]
    requires epsilon_bound { (epsilon ≤ 16) × ((half ≤ 16) × ((modulus ≤ 2 ^ 62) × (reading ≤ 2 ^ 62))) }
    requires own_value { (own ≡ padded widest (take (2 * epsilon) own)) × (length other.now ≡ 2 * half) }
    ensures { result ≡ padded widest (tab (width epsilon) (larger_beside epsilon modulus own half reading other.now)) }
{
    let at = reading + epsilon;
    let low = modulus + half;
    let up = at.saturating_sub(low);
    let down = low.saturating_sub(at);
    let own_left = (2 * epsilon).saturating_sub(up);
    let other_left = (2 * half).saturating_sub(down);
    let mut kn = own;
    raise(&mut kn, up, other, down, own_left.min(other_left));
    kn
}

// 02, 2.2: "c drops by the step and counts move down by it", from counts of a half width into 2ε.
pub fn step_into(stamp: Timestamp, epsilon: usize, half: usize, k: usize, clock: usize) -> Timestamp
    requires { (epsilon ≤ 16) × ((half ≤ 16) × (k ≤ 2 ^ 62)) }
    ensures { stamp_of result ≡ widened (step_into epsilon half k clock (trimmed half (stamp_of stamp))) }
{
    let own = [0u8; Timestamp::WIDTH];
    let kn = raise_beside(own, epsilon, k, &stamp.kn[..2 * half], half, 0);
    Timestamp {
        r: clock,
        c: stamp.c.saturating_sub(k),
        kn,
    }
}

// 01, tick 3: "c and each count become the larger of own and frame's, both placed relative to v", which reads B. The frame has counts of its own
// half width.
pub fn absorb_into(
    stamp: Timestamp,
    epsilon: usize,
    half: usize,
    modulus: usize,
    reading: usize,
    c: usize,
    counts: &[u8],
) -> Timestamp
    requires epsilon_bound { (epsilon ≤ 16) × ((half ≤ 16) × ((modulus ≤ 2 ^ 62) × ((reading ≤ 2 ^ 62) × (c ≤ 2 ^ 16)))) }
    requires stamp_value { (stamp_of stamp ≡ widened (trimmed epsilon (stamp_of stamp))) × (length counts.now ≡ 2 * half) }
    ensures { stamp_of result
        ≡ widened (absorb_wide epsilon half modulus (trimmed epsilon (stamp_of stamp)) reading (of_counts c counts.now)) }
{
    let kn = raise_beside(stamp.kn, epsilon, modulus, counts, half, reading);
    Timestamp {
        r: stamp.r,
        c: larger_lead(stamp.c, reading + c, modulus),
        kn,
    }
}
