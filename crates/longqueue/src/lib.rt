// 02, 2.9: the hold-back queue of an engine with long clocks, "not judged for order".

#![tactic(auto)]

mod change;
mod origins;
mod soundness;

pub use change::{Opened, append, open};
pub use origins::{origin_among, repeats};
pub use soundness::{Walk, sound};
