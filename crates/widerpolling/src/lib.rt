// 02, 2.5 with both pairs of limits, 2.10: when something shows next, from the front of the shelf.

#![tactic(auto)]

mod call;
mod front;

pub use call::poll_in;
