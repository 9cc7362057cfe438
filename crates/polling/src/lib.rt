// 02, 2.5: when something shows next, from the front of the shelf.

#![tactic(auto)]

mod call;
mod front;

pub use call::{Polled, nothing, poll};
pub use front::Next;
