// Numbers and words as text, written into a buffer where there is room for them.

#![tactic(auto)]

mod digits;
mod parts;

pub use digits::{digit_count, put_decimal, put_digits};
pub use parts::{put_field, put_word};
