// 02, 2.4: which of two frames is first, and what decided: of frames that have passed 10 to 12, and as a call that asks for that.

#![tactic(auto)]

mod call;
mod frames;

pub use call::{Compared, compare_call, numbers_of, refused};
pub use frames::{at_clocks, compare_frames};
