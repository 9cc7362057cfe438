// 02, 2.9: the hand-out of an engine with long clocks: "a search through all of them at hand-out".

#![tactic(auto)]

mod order;
mod placing;
mod walk;

pub use walk::deliver;
