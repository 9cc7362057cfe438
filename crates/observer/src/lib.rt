// 02, 2.6: "A board that only listens", here an observer: what it shares with a node is the node's.

#![tactic(auto)]

mod call;
mod listening;

pub use call::check_sized;
pub use listening::{Listened, listen};
