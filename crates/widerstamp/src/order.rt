// 01, "Order of two stamps, first difference decides", of stamps that have counts of their own half widths: sum; so many counts as frames of that
// sum compare, a missing one 0; station number; r. 02, 2.4: and what decided.
ghost use Rattle.std.specs.Prelude.{◌≡◌, ◌≤◌, ◌^◌};
ghost use Rattle.model.specs.Timestamp.{count_at};
ghost use Rattle.model.specs.Comparison.{compare_keys};
ghost use Rattle.timestamp.specs.Ranks.{comparison_of, ranked_frame};
ghost use Rattle.widerstamp.specs.Keys.{key_with, Small};

use splice::byte_at;
use timestamp::{Comparison, Rank, compare_by_counts};

// The count, a byte, at offset c − k of counts of a half width; "Outside those offsets a count reads as 0".
fn count_down(half: usize, kn: &[u8], c: usize, k: usize) -> u8
    requires { (half ≤ 16) × (c ≤ 2 ^ 16) }
    ensures { result ≡ count_at half k kn.now c }
{
    let Some(place) = (c + half).checked_sub(k) else {
        return 0;
    };
    byte_at(kn, place)
}

// The comparison of two frames by so many counts, each frame with counts of its own half width in a slice.
pub fn compare_by(
    most: usize,
    f: Rank,
    half_f: usize,
    kf: &[u8],
    g: Rank,
    half_g: usize,
    kg: &[u8],
) -> Comparison
    requires { (most ≤ 16) × (Small half_f f × Small half_g g) }
    ensures { comparison_of result
        ≡ compare_keys most (key_with most half_f f.reading (ranked_frame f kf.now))
        (key_with most half_g g.reading (ranked_frame g kg.now)) }
{
    compare_by_counts(
        most,
        f,
        |k| count_down(half_f, kf, f.c, k),
        g,
        |k| count_down(half_g, kg, g.c, k),
    )
}
