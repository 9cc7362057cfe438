// 02, 2.13: how well the stations hear each other: what became of their frames in the last 256 accepted calls.

#![tactic(auto)]

mod call;
mod column;
mod row;
mod totals;

pub use call::keep_figures;
