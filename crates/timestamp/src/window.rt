// The soundness of counts that stand in a window: bytes of which there are 32 at least, whatever ε is. The loop over them has a fixed length
// and no branch, and bits are gathered, so that the compiler can take 16 counts at a time and ask once for all.
ghost use Rattle.std.specs.Prelude.{◌≡◌, ℕ, ◌*◌, ◌≤◌, ◌<◌, length, take};
ghost use Rattle.model.specs.Timestamp.{sound_timestamp};
ghost use Rattle.timestamp.specs.Views.{of_counts, within_ceilings};
ghost use Rattle.timestamp.specs.Window.{ceilings_of};

use crate::stamp::Timestamp;

// The limits have three parts of 32 places; the third, which tells counts from what is past them, starts at 64.
pub const CEILINGS: usize = 96;

const OTHERS_AT: usize = 64;

// What the counts of a setup are held to. Its first 64 places, from the place 31 − top on, are the limits of counts of which those above
// the place `top` are 0; the last 32 say which places are no counts.
pub fn ceilings_of(n: usize, epsilon: usize) -> [u8; CEILINGS]
    requires { (n ≤ 16) × (epsilon ≤ 16) }
    ensures { result ≡ ceilings_of n epsilon }
{
    let mut ceilings = [0u8; CEILINGS];
    ceilings[..Timestamp::WIDTH].fill(n as u8);
    ceilings[OTHERS_AT + 2 * epsilon..].fill(255);
    ceilings
}

// 01: "each count ≤ n" and "all counts above" the place `top` "are 0": none of the 32 bytes lies past its limit.
fn within_window(kn: &[u8], ceilings: &[u8], top: usize) -> bool
    requires { (32 ≤ length kn.now) × ((length ceilings.now ≡ 96) × (top < 32)) }
    ensures { (n epsilon : ℕ) → epsilon ≤ 16 → top < 2 * epsilon → ceilings.now ≡ ceilings_of n epsilon
        → result ≡ within_ceilings n top (take (2 * epsilon) kn.now) }
{
    let from = Timestamp::WIDTH - 1 - top;
    let limits = ceilings[from..from + Timestamp::WIDTH]
        .iter()
        .zip(&ceilings[OTHERS_AT..]);
    let mut over = 0u8;
    for (count, (limit, other)) in kn[..Timestamp::WIDTH].iter().zip(limits) {
        over |= count.saturating_sub((*limit).max(*other));
    }
    over == 0
}

// The soundness of a stamp with that c and the 2ε counts at the front of a window, by the limits of n and ε.
pub fn sound_window(kn: &[u8], c: usize, ceilings: &[u8], epsilon: usize) -> bool
    requires { (1 ≤ epsilon) × ((epsilon ≤ 16) × ((32 ≤ length kn.now) × (length ceilings.now ≡ 96))) }
    ensures { (n : ℕ) → ceilings.now ≡ ceilings_of n epsilon
        → result ≡ sound_timestamp n epsilon (of_counts c (take (2 * epsilon) kn.now)) }
{
    c < epsilon && within_window(kn, ceilings, epsilon + c) && 1 <= kn[epsilon + c]
}
