// 01: the setup and its limits, the lengths that follow from it, and the questions on a clock, a shelf and a board's buffers.

#![tactic(auto)]

mod limits;
mod numbers;
mod questions;

pub use limits::{
    LONGEST_PAYLOAD, Setup, VERDICT_LENGTH, depth, holdback_length, in_limits,
    in_limits_but_modulus, longest_frame, sum_due, valid_for,
};
pub use numbers::{
    BAD_BATCH, BAD_BUFFERS, BAD_CLOCK, BAD_COUNT, BAD_FORM, BAD_HOLDBACK, BAD_PAYLOAD, BAD_PRESS,
    BAD_RANGE, BAD_SETUP, BAD_STAMP, CHARGED, EARLY, FULL_LEDGER, LATE, NOT_WIDER, REPEAT,
    TOO_MANY,
};
pub use questions::{check_holdback, delivery_roomy};
