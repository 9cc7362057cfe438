// The parts of a line, each written at a position where there is room for it; the answer is where
// it ends.
ghost use Rattle.std.specs.Prelude.{◌≡◌, ◌+◌, ◌*◌, ◌≤◌, length};
ghost use Rattle.laws.specs.Lists.{joined};
ghost use Rattle.text.specs.Text.{Put};
ghost use Rattle.timestamp.specs.Ranks.{comparison_of};
ghost use Rattle.trace.specs.Text.{fields, hex_byte, payload_text, payload_tail, give_text};

use crate::reasons::put_ending;
use text::{put_digits, put_field, put_word};
use timestamp::Comparison;

// Three words, each with a number after it.
pub fn put_fields(
    buf: &mut [u8],
    at: usize,
    first: &[u8],
    x: usize,
    second: &[u8],
    y: usize,
    third: &[u8],
    z: usize,
) -> usize
    requires { at + length (fields first.now x second.now y third.now z) ≤ length buf.old }
    ensures { Put buf.old at (fields first.now x second.now y third.now z) buf.new result }
{
    let after_x = put_field(buf, at, first, x);
    let after_y = put_field(buf, after_x, second, y);
    put_field(buf, after_y, third, z)
}

// Two digits for each byte.
fn put_hex(buf: &mut [u8], at: usize, bytes: &[u8]) -> usize
    requires { at + length (joined hex_byte bytes.now) ≤ length buf.old }
    ensures { Put buf.old at (joined hex_byte bytes.now) buf.new result }
{
    let mut end = at;
    let mut i = 0;
    while i < bytes.len() {
        put_digits(buf, end, 16, 2, bytes[i] as usize);
        end += 2;
        i += 1;
    }
    end
}

// How long the text of a payload is.
pub fn payload_size(payload: &[u8]) -> usize
    ensures { (result ≡ length (payload_text payload.now)) × (result ≤ 2 * length payload.now + 1) }
{
    if payload.len() == 0 {
        return 1;
    }
    2 * payload.len()
}

// 01: "the ticket in hexadecimal … (`-` if empty)".
fn put_payload(buf: &mut [u8], at: usize, payload: &[u8]) -> usize
    requires { at + length (payload_text payload.now) ≤ length buf.old }
    ensures { Put buf.old at (payload_text payload.now) buf.new result }
{
    if payload.len() == 0 {
        return put_word(buf, at, b"-");
    }
    put_hex(buf, at, payload)
}

// The payload, and the end of the line.
fn put_tail(buf: &mut [u8], at: usize, payload: &[u8], comparison: Comparison) -> usize
    requires { at + length (payload_tail payload.now (comparison_of comparison).reason) ≤ length buf.old }
    ensures { Put buf.old at (payload_tail payload.now (comparison_of comparison).reason) buf.new result }
{
    let after_space = put_word(buf, at, b" ");
    let after_payload = put_payload(buf, after_space, payload);
    put_ending(buf, after_payload, comparison)
}

// 01: "a give line has station, r and the ticket"; 02, 2.4: it ends with the reason.
pub fn put_give(
    buf: &mut [u8],
    at: usize,
    station: usize,
    r: usize,
    payload: &[u8],
    comparison: Comparison,
) -> usize
    requires { at + length (give_text station r payload.now (comparison_of comparison).reason) ≤ length buf.old }
    ensures { Put buf.old at (give_text station r payload.now (comparison_of comparison).reason) buf.new result }
{
    let after_station = put_field(buf, at, b"give ", station);
    let after_r = put_field(buf, after_station, b" ", r);
    put_tail(buf, after_r, payload, comparison)
}
