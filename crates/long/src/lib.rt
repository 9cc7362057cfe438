// 02, 2.9: one tick of the engine with long clocks: a plain station whose clocks are never reduced.

#![tactic(auto)]

mod attending;
mod call;
mod hearing;
mod opening;
mod questions;
mod sending;
mod ticking;

pub use ticking::tick;
