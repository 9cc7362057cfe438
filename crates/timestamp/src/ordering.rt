// 01, "Order of two stamps, first difference decides": sum; ε counts; station number; r. 02, 2.4: and what decided.
ghost use Rattle.std.specs.Prelude.{◌≡◌, ℕ};
ghost use Rattle.laws.specs.Lists.{tab};
ghost use Prim.Native.Nat.{compare, ◌+◌, ◌≤◌, ◌<◌, ◌^◌};
ghost use Rattle.model.specs.Timestamp.{trimmed};
ghost use Rattle.model.specs.Order.{key_by};
ghost use Rattle.model.specs.Comparison.{compare_keys};
ghost use Rattle.timestamp.specs.Views.{stamp_of};
ghost use Rattle.timestamp.specs.Ranks.{reason_of, comparison_of, decide_by, compare_counts, Reads, in_turn, stamped_frame, ranked_frame, Ranked};

use crate::stamp::Timestamp;
use std::cmp::Ordering;

// 02, 2.4: what decided. An enum of its own: std's `Ordering` says which is first, and not by what.
#[derive(Clone, Copy, Debug, PartialEq, Eq)]
pub enum Reason {
    Sum,
    // the count at a clock. The comparisons of this file say how far that lies before the sum
    Count(usize),
    Station,
    R,
}

// 02, 2.4: "which is first and also what decided"; nothing where the two are alike. An enum of its own: std's `Ordering` has no place for what
// decided.
#[derive(Debug, Drop, PartialEq, Eq)]
pub enum Comparison {
    First(Reason),
    Second(Reason),
    Alike,
}

// What the order looks at beside the counts.
#[derive(Clone, Copy)]
pub struct Rank {
    // 01: r, read near v
    pub reading: usize,
    pub c: usize,
    pub station: usize,
}

// What two numbers decide, for that reason.
pub fn compare_numbers(a: usize, b: usize, reason: Reason) -> Comparison
    ensures { comparison_of result ≡ decide_by (reason_of reason) (compare a b) }
{
    match a.cmp(&b) {
        Ordering::Less => Comparison::First(reason),
        Ordering::Greater => Comparison::Second(reason),
        Ordering::Equal => Comparison::Alike,
    }
}

// 01: "count at offset c; at c − 1; and so on", so many of them, each by how many clocks it lies before the sum. The form is 01's for "The
// comparison ends at the first count that differs": a loop over the counts that yields its order by break at the first difference.
fn compare_counts<F: Fn(usize) -> u8, G: Fn(usize) -> u8>(
    most: usize,
    count_f: &F,
    count_g: &G,
) -> Comparison
    requires { (k : ℕ) → k < most → F.pre count_f.now k × G.pre count_g.now k }
    ensures { (a b : ℕ → ℕ) → Reads most (F.post count_f.now) a → Reads most (G.post count_g.now) b
        → comparison_of result ≡ compare_counts 0 (tab most a) (tab most b) }
{
    let mut k = 0;
    let comparison = loop {
        if most <= k {
            break Comparison::Alike;
        }
        let x = count_f(k);
        let y = count_g(k);
        if x < y {
            break Comparison::First(Reason::Count(k));
        }
        if y < x {
            break Comparison::Second(Reason::Count(k));
        }
        k += 1;
    };
    comparison
}

// The comparison of two frames by so many counts, each of which is asked for by how many clocks it lies before the sum.
pub fn compare_by_counts<F: Fn(usize) -> u8, G: Fn(usize) -> u8>(
    most: usize,
    f: Rank,
    count_f: F,
    g: Rank,
    count_g: G,
) -> Comparison
    requires sums { (f.reading + f.c < 2 ^ 64) × (g.reading + g.c < 2 ^ 64) }
    requires counts { (k : ℕ) → k < most → F.pre count_f k × G.pre count_g k }
    ensures { (a b : ℕ → ℕ) → Reads most (F.post count_f) a → Reads most (G.post count_g) b
        → comparison_of result ≡ in_turn f g (compare_counts 0 (tab most a) (tab most b)) }
{
    let sums = compare_numbers(f.reading + f.c, g.reading + g.c, Reason::Sum);
    let Comparison::Alike = sums else {
        return sums;
    };
    let counts = compare_counts(most, &count_f, &count_g);
    let Comparison::Alike = counts else {
        return counts;
    };
    let stations = compare_numbers(f.station, g.station, Reason::Station);
    let Comparison::Alike = stations else {
        return stations;
    };
    compare_numbers(f.reading, g.reading, Reason::R)
}

// The comparison of two frames whose 2ε counts lie in slices. 01: "count at offset c; at c − 1; and so on to c − ε + 1 (ε counts)".
pub fn compare_ranked(epsilon: usize, f: Rank, kf: &[u8], g: Rank, kg: &[u8]) -> Comparison
    requires ranked { Ranked epsilon f kf.now }
    requires ranked_2 { Ranked epsilon g kg.now }
    ensures { comparison_of result ≡ compare_keys epsilon (key_by epsilon f.reading (ranked_frame f kf.now)) (key_by epsilon g.reading (ranked_frame g kg.now)) }
{
    compare_by_counts(
        epsilon,
        f,
        |k| kf[epsilon + f.c - k],
        g,
        |k| kg[epsilon + g.c - k],
    )
}

// The comparison of two frames by their timestamps, each r at its reading; places past the 2ε counts are ignored.
pub fn compare(
    epsilon: usize,
    at_f: usize,
    f: Timestamp,
    station_f: usize,
    at_g: usize,
    g: Timestamp,
    station_g: usize,
) -> Comparison
    requires epsilon_bound { (epsilon ≤ 16) × ((f.c < epsilon) × (g.c < epsilon)) }
    requires at_f_bound { (at_f ≤ 2 ^ 63) × (at_g ≤ 2 ^ 63) }
    ensures { comparison_of result ≡ compare_keys epsilon (key_by epsilon at_f (stamped_frame station_f (trimmed epsilon (stamp_of f)))) (key_by epsilon at_g (stamped_frame station_g (trimmed epsilon (stamp_of g)))) }
{
    let rank_f = Rank {
        reading: at_f,
        c: f.c,
        station: station_f,
    };
    let rank_g = Rank {
        reading: at_g,
        c: g.c,
        station: station_g,
    };
    compare_ranked(epsilon, rank_f, &f.kn, rank_g, &g.kn)
}
