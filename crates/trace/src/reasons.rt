// The end of a give line: what decided against the line before it.
ghost use Rattle.std.specs.Prelude.{◌≡◌, ◌+◌, ◌≤◌, length};
ghost use Rattle.text.specs.Text.{Put};
ghost use Rattle.timestamp.specs.Ranks.{reason_of, comparison_of};
ghost use Rattle.trace.specs.Text.{reason_text, reason_tail};

use text::{digit_count, put_field, put_word};
use timestamp::{Comparison, Reason};

// How long the words of a reason are.
fn reason_size(reason: Reason) -> usize
    ensures { (result ≡ length (reason_text (reason_of reason))) × (result ≤ 27) }
{
    match reason {
        Reason::Sum => 4,
        Reason::Count(clock) => 7 + digit_count(clock),
        Reason::Station => 8,
        Reason::R => 2,
    }
}

// The same of a comparison: a dash where nothing decided.
pub fn decided_size(comparison: Comparison) -> usize
    ensures { (result ≡ length (reason_text (comparison_of comparison).reason)) × (result ≤ 27) }
{
    match comparison {
        Comparison::First(reason) => reason_size(reason),
        Comparison::Second(reason) => reason_size(reason),
        Comparison::Alike => 2,
    }
}

// 02, 2.4: "`sum`, `count` and its clock modulo B, `station`, `r`", each after a space.
fn put_reason(buf: &mut [u8], at: usize, reason: Reason) -> usize
    requires { at + length (reason_text (reason_of reason)) ≤ length buf.old }
    ensures { Put buf.old at (reason_text (reason_of reason)) buf.new result }
{
    match reason {
        Reason::Sum => put_word(buf, at, b" sum"),
        Reason::Count(clock) => put_field(buf, at, b" count ", clock),
        Reason::Station => put_word(buf, at, b" station"),
        Reason::R => put_word(buf, at, b" r"),
    }
}

// The same of a comparison: a dash where nothing decided.
fn put_decided(buf: &mut [u8], at: usize, comparison: Comparison) -> usize
    requires { at + length (reason_text (comparison_of comparison).reason) ≤ length buf.old }
    ensures { Put buf.old at (reason_text (comparison_of comparison).reason) buf.new result }
{
    match comparison {
        Comparison::First(reason) => put_reason(buf, at, reason),
        Comparison::Second(reason) => put_reason(buf, at, reason),
        Comparison::Alike => put_word(buf, at, b" -"),
    }
}

// And the end of the line.
pub fn put_ending(buf: &mut [u8], at: usize, comparison: Comparison) -> usize
    requires { at + length (reason_tail (comparison_of comparison).reason) ≤ length buf.old }
    ensures { Put buf.old at (reason_tail (comparison_of comparison).reason) buf.new result }
{
    let end = put_decided(buf, at, comparison);
    put_word(buf, end, b"\n")
}
