// Tables in 35 bytes, an engine's in 41, and answers in one number.
ghost use Rattle.std.specs.Prelude.{◌≡◌, ◌∷◌, ◌+◌, ◌*◌, ◌<◌, length};
ghost use Rattle.model.specs.Frame.{two_bytes, two_at};
ghost use Rattle.timestamp.specs.Views.{stamp_of};
ghost use Rattle.comparing.specs.Answers.{compare_answer};
ghost use Rattle.node.specs.Answers.{answer_of};
ghost use Rattle.polling.specs.Answers.{SmallNext, next_of, poll_answer};
ghost use Rattle.splice.specs.Bytes.{pasted};
ghost use Rattle.abi.specs.Packing.{tables_length, tables_at, tables_in, tables_bytes, long_tables_length, long_tables_in, long_tables_bytes, packed_numbers, packed_answer, packed_comparison, next_bits, packed_poll};

use comparing::Compared;
use node::Answer;
use observer::Listened;
use polling::{Next, Polled};
use timestamp::{Timestamp, counts_of};

// Tables with that r, whose c stands at a place of the bytes, and the 32 counts behind it.
fn tables_at(s: &[u8], at: usize, r: usize) -> Timestamp
    requires { at + 33 ≡ length s.now }
    ensures { stamp_of result ≡ tables_at at r s.now }
{
    let kn = counts_of(s, at + 1, Timestamp::WIDTH);
    let c = s[at] as usize;
    Timestamp { r, c, kn }
}

// The tables that stand in the bytes: r in two, the low one first, c, and 32 counts. Written back they are those bytes.
pub fn tables_of(s: &[u8]) -> Timestamp
    requires { length s.now ≡ tables_length }
    ensures result_value { stamp_of result ≡ tables_in s.now }
    ensures result_value_2 { tables_bytes (stamp_of result) ≡ s.now }
{
    tables_at(s, 2, splice::two_at(s, 0))
}

// 02, 2.9: an engine's tables: r in eight bytes.
pub fn long_tables_of(s: &[u8]) -> Timestamp
    requires { length s.now ≡ long_tables_length }
    ensures result_value { stamp_of result ≡ long_tables_in s.now }
    ensures result_value_2 { long_tables_bytes (stamp_of result) ≡ s.now }
{
    tables_at(s, 8, splice::eight_at(s, 0) as usize)
}

// Writes c and the counts of tables into their last bytes, from a place on.
fn put_tables_at(s: &mut [u8], at: usize, stamp: Timestamp)
    requires { (at + 33 ≡ length s.old) × (stamp.c < 256) }
    ensures { s.new ≡ pasted s.old at (stamp.c ∷ stamp.kn) }
{
    let kn = stamp.kn;
    s[at] = stamp.c as u8;
    splice::copy_into(s, at + 1, &kn);
}

// Writes tables into their bytes.
pub fn put_tables(s: &mut [u8], stamp: Timestamp)
    requires s_len { length s.old ≡ tables_length }
    requires r_bound { (stamp.r < 65536) × (stamp.c < 256) }
    ensures { s.new ≡ tables_bytes (stamp_of stamp) }
{
    splice::put_u16(s, 0, stamp.r);
    put_tables_at(s, 2, stamp);
}

// 02, 2.9: the same of an engine.
pub fn put_long_tables(s: &mut [u8], stamp: Timestamp)
    requires s_len { length s.old ≡ long_tables_length }
    requires c_bound { stamp.c < 256 }
    ensures { s.new ≡ long_tables_bytes (stamp_of stamp) }
{
    splice::put_u64(s, 0, stamp.r);
    put_tables_at(s, 8, stamp);
}

// An observer's last clock from its two bytes, the low one first. Written back it is those bytes.
pub fn last_of(bytes: &[u8]) -> usize
    requires { length bytes.now ≡ 2 }
    ensures { (result ≡ two_at bytes.now 0) × (two_bytes result ≡ bytes.now) }
{
    splice::two_at(bytes, 0)
}

// The figures of a tick, and of an observer's call, as one number.
fn pack_numbers(number: u8, repair: u8, taken: usize, sent: usize, delivered: usize) -> u64
    requires { (taken < 256) × ((sent < 256) × (delivered < 65536)) }
    ensures { result ≡ packed_numbers number repair taken sent delivered }
{
    number as u64
        + 256
            * (repair as u64
                + 256 * (taken as u64 + 256 * (sent as u64 + 256 * (delivered as u64))))
}

// A tick's answer as one number.
pub fn pack_answer(a: Answer) -> u64
    requires { (a.taken < 256) × ((a.sent < 256) × (a.delivered < 65536)) }
    ensures { result ≡ packed_answer (answer_of a) }
{
    pack_numbers(a.number, a.repair, a.taken, a.sent, a.delivered)
}

// An observer's answer as one number: it sends nothing.
pub fn pack_listened(a: Listened) -> u64
    requires { (a.taken < 256) × (a.delivered < 65536) }
    ensures { result ≡ packed_numbers a.number a.repair a.taken 0 a.delivered }
{
    pack_numbers(a.number, a.repair, a.taken, 0, a.delivered)
}

// What the reader found as one number.
pub fn pack_reading(station: usize, at: usize, size: usize) -> u64
    requires { (station < 256) × ((at < 65536) × (size < 65536)) }
    ensures { result ≡ 256 * (station + 256 * (at + 65536 * size)) }
{
    256 * (station as u64 + 256 * (at as u64 + 65536 * (size as u64)))
}

// What the writer answers, and the words, as one number.
pub fn pack_written(number: u8, size: usize) -> u64
    requires { size < 65536 }
    ensures { result ≡ number + 256 * size }
{
    number as u64 + 256 * (size as u64)
}

// A comparison as one number.
pub fn pack_compared(a: Compared) -> u64
    requires { a.clock < 65536 }
    ensures { result ≡ packed_comparison (compare_answer a) }
{
    a.number as u64 + 256 * (a.order as u64 + 256 * (a.reason as u64 + 65536 * (a.clock as u64)))
}

// The next due clock as a number.
fn pack_next(next: Next) -> u64
    requires { SmallNext (next_of next) }
    ensures { (result ≡ next_bits (next_of next)) × (result < 16777216) }
{
    match next {
        Next::Nothing => 0,
        Next::At(clock) => 1 + 256 * (clock as u64),
    }
}

// What a poll found as one number.
pub fn pack_polled(a: Polled) -> u64
    requires { SmallNext (next_of a.next) × (a.within < 65536) }
    ensures { result ≡ packed_poll (poll_answer a) }
{
    let next = a.next;
    a.number as u64 + 256 * (pack_next(next) + 16777216 * (a.within as u64))
}
