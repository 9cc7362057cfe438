// 02, 2.1: a line of words for each judged frame of a batch.

#![tactic(auto)]

mod line;
mod lines;
mod questions;

pub use lines::{Written, write_words};
