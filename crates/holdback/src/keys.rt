// By what the walk over a queue checks its order: numbers that are compared without a branch, since how far two frames are alike cannot be
// foreseen. The order is that of 01's comparison, which decides where a place is searched.
ghost use Rattle.std.specs.Prelude.{◌≡◌, ◌+◌, ◌^◌, ◌<◌, ◌≤◌, true, length, if◌then◌else◌, nat_lt};
ghost use Rattle.model.specs.Setup.{in_limits};
ghost use Rattle.model.specs.Frame.{counts_of, payload_count_at};
ghost use Rattle.setup.specs.Views.{setup_of};
ghost use Rattle.frame.specs.Newest.{newest_from};
ghost use Rattle.holdback.specs.Keys.{key_at, no_key, key_less, Roomy};
ghost use Rattle.holdback.specs.Seen.{Within};

use crate::origins::slot;
use setup::Setup;
use timestamp::Rank;

#[derive(Clone, Copy)]
pub struct Key {
    // 01: the sum, with r read near v
    pub sum: usize,
    // the eight newest counts, and those behind them
    pub newest: u64,
    pub older: u64,
    // the place of station and reading in the table of origins
    pub slot: usize,
}

// The key where there is no frame: every frame of a sound queue has a larger one.
pub fn no_key() -> Key
    ensures { result ≡ no_key }
{
    Key {
        sum: 0,
        newest: 0,
        older: 0,
        slot: 0,
    }
}

// The ε counts behind the eight newest, as one number: 0 where there are none.
fn older_counts(epsilon: usize, c: usize, frame: &[u8]) -> u64
    requires epsilon_bound { (epsilon ≤ 16) × (payload_count_at epsilon ≤ length frame.now) }
    requires c_lt_epsilon { c < epsilon }
    ensures { result ≡ newest_from epsilon c 8 (counts_of epsilon frame.now) }
{
    if epsilon <= 8 {
        return 0;
    }
    frame::newest_counts(epsilon, c, 8, frame)
}

// The key of the frame at the front of some bytes, by its rank.
pub fn key_of(setup: Setup, rank: Rank, w: &[u8]) -> Key
    requires setup_value { (in_limits (setup_of setup) ≡ true) × Within (setup_of setup) rank }
    requires c_lt_epsilon { (rank.c < setup.epsilon) × (payload_count_at setup.epsilon ≤ length w.now) }
    ensures { result ≡ key_at (setup_of setup) rank (counts_of setup.epsilon w.now) }
{
    let epsilon = setup.epsilon as usize;
    let newest = frame::newest_counts(epsilon, rank.c, 0, w);
    let older = older_counts(epsilon, rank.c, w);
    Key {
        sum: rank.reading + rank.c,
        newest,
        older,
        slot: slot(setup, rank),
    }
}

// 1 where the first number is the smaller, and where both are the same if what follows them decides so; otherwise 0.
fn decide(a: u64, b: u64, tie: u64) -> u64
    requires { (tie ≤ 1) × (b + 1 < 2 ^ 64) }
    ensures { (result ≡ (if nat_lt a (b + tie) then 1 else 0)) × (result ≤ 1) }
{
    if a < b + tie { 1 } else { 0 }
}

// The first of two keys is the smaller.
pub fn key_less(f: Key, g: Key) -> bool
    requires { Roomy g }
    ensures { result ≡ key_less f g }
{
    let by_slot = decide(f.slot as u64, g.slot as u64, 0);
    let by_older = decide(f.older, g.older, by_slot);
    let by_newest = decide(f.newest, g.newest, by_older);
    decide(f.sum as u64, g.sum as u64, by_newest) == 1
}
