// 02, 2.10: the comparison with both pairs of limits, which judges as a tick at its clock.

#![tactic(auto)]

mod call;
mod frames;

pub use call::compare_in;
pub use frames::compare_wide;
