// 02, 2.10: one tick of a node with both pairs of limits: the call's questions, one frame judged, the hearing, sending and delivering; and what of
// it an observer shares. What no width moves is the plain node's.

#![tactic(auto)]

mod attending;
mod call;
mod hearing;
mod questions;
mod queue;
mod ticking;

pub use attending::attend;
pub use ticking::tick_in;
