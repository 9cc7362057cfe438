// 01, "The replay program": from the bytes of a trace to the arguments of a call, and from its
// answer and delivery (01: hand-out) to the lines of text. Any bytes get an answer.

#![tactic(auto)]

mod lines;
mod parse;
mod parts;
mod reasons;

pub use lines::{TickNumbers, put_lines, put_stopped};
pub use parse::{
    BAD_TRACE, COUNT_LENGTH, NodeSetup, SETUP_LENGTH, batch_of, count_number, end_number,
    one_before, payload_of, read_call, read_setup, setup_number, tick_count, tick_end,
};
