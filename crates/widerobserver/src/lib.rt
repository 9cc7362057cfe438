// 02, 2.10: "A listener changes setups as a station does": one call of an observer with both pairs of limits. What it shares with a node is the
// node's.

#![tactic(auto)]

mod call;
mod listening;

pub use listening::listen_in;
