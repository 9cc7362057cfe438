// 02, 2.10: the stamp, with counts of one width stepped into and absorbed by those of another, and the order of two stamps of any widths.

#![tactic(auto)]

mod order;
mod stamp;

pub use order::compare_by;
pub use stamp::{absorb_into, step_into};
