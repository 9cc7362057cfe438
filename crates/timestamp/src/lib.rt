// 01: the stamp, what one tick does to it, and the order of two stamps.

#![tactic(auto)]

mod ordering;
mod stamp;
mod window;

pub use ordering::{
    Comparison, Rank, Reason, compare, compare_by_counts, compare_numbers, compare_ranked,
};
pub use stamp::{
    Timestamp, ahead, clock_sound, clock_step, counts_at_most, counts_of, larger_lead, near, past,
    raise, sound_counts,
};
pub use window::{ceilings_of, sound_window};
