// The boundary to C: the tick, the reader, the writer, the words, the comparison, the poll, an observer's call and what station and observer start
// with, over numbers and byte slices. A slice is a pointer and a length; the tables are a pointer to 35 bytes (r low, r high, c, 32 counts); the answer
// is one number. Any arguments get an answer.

#![tactic(auto)]

mod charging;
mod counting;
mod engine;
mod packing;
mod widening;

ghost use Rattle.std.specs.Prelude.{◌≡◌};
ghost use Rattle.model.specs.Codec as codec;
ghost use Rattle.model.specs.Tick as model;
ghost use Rattle.model.specs.Comparison.{compare_call};
ghost use Rattle.model.specs.Poll.{poll};
ghost use Rattle.model.specs.Observer as observers;
ghost use Rattle.words.specs.Words.{words};
ghost use Rattle.abi.specs.Fresh.{fresh_number, fresh_bytes, fresh_last_number, fresh_last_bytes, version};
ghost use Rattle.abi.specs.Packing.{setup_by, input_by, tables_in, returned, packed, packed_read, read_tables, packed_write, packed_words, packed_comparison, packed_poll, listening_by, returned_listening, packed_listening};

use comparing::compare_call;
use node::tick;
use packing::{
    last_of, pack_answer, pack_compared, pack_listened, pack_polled, pack_reading, pack_written,
    put_tables, tables_of,
};
use setup::{BAD_CLOCK, BAD_SETUP, Setup, in_limits, valid_for};
use timestamp::Timestamp;
use words::write_words;

// One tick. The number in bits 0 to 7, 01's mend in 8 to 15, frames taken in 16 to 23, the outgoing length in 24 to 31,
// frames handed out in 32 to 47. A refusal is the number alone, and changes nothing.
#[unsafe(no_mangle)]
pub extern "C" fn yarngravel_tick(
    n: u32,
    epsilon: u32,
    delta: u32,
    modulus: u32,
    own: u32,
    clock: u32,
    tables: &mut [u8; 35],
    holdback: &mut [u8],
    batch: &[u8],
    send: bool,
    payload: &[u8],
    outgoing: &mut [u8],
    verdicts: &mut [u8],
    delivery: &mut [u8],
) -> u64
    ensures { returned result tables.new holdback.new outgoing.new verdicts.new delivery.new
        ≡ packed (model.tick (input_by (setup_by n epsilon delta modulus) own clock tables.old holdback.old
        batch.now send payload.now outgoing.old verdicts.old delivery.old)) }
{
    let setup = Setup {
        n,
        epsilon,
        delta,
        modulus,
    };
    let given = tables_of(tables);
    let answer = tick(
        setup,
        own,
        clock as usize,
        given,
        holdback,
        batch,
        send,
        payload,
        outgoing,
        verdicts,
        delivery,
    );
    if answer.number != 0 {
        return answer.number as u64;
    }
    let stamp = answer.tables;
    put_tables(tables, stamp);
    pack_answer(answer)
}

// The reader. The number in bits 0 to 7, the station in 8 to 15, the place of the payload in the frame in 16 to 31, its
// length in 32 to 47; the tables get r, c and the counts. A refusal is the number alone, and writes nothing.
#[unsafe(no_mangle)]
pub extern "C" fn yarngravel_read(
    n: u32,
    epsilon: u32,
    delta: u32,
    modulus: u32,
    own: u32,
    frame: &[u8],
    tables: &mut [u8; 35],
) -> u64
    ensures value { result ≡ packed_read epsilon (codec.read (setup_by n epsilon delta modulus) own frame.now) }
    ensures tables_after { tables.new
        ≡ read_tables (codec.read (setup_by n epsilon delta modulus) own frame.now) tables.old }
{
    let setup = Setup {
        n,
        epsilon,
        delta,
        modulus,
    };
    let reading = frame::read(setup, own, frame);
    if reading.number != 0 {
        return reading.number as u64;
    }
    let stamp = reading.stamp;
    put_tables(tables, stamp);
    let payload = frame::payload_of(setup, own, frame);
    let size = payload.len();
    pack_reading(reading.station, frame.len() - size, size)
}

// The writer. The number in bits 0 to 7, the frame's length in 8 to 23. A refusal is the number alone, and writes nothing.
#[unsafe(no_mangle)]
pub extern "C" fn yarngravel_write(
    n: u32,
    epsilon: u32,
    delta: u32,
    modulus: u32,
    own: u32,
    station: u32,
    tables: &[u8; 35],
    payload: &[u8],
    out: &mut [u8],
) -> u64
    ensures value { result ≡ packed_write (codec.write (setup_by n epsilon delta modulus) own station
        (tables_in tables.now) payload.now out.old) }
    ensures out_after { out.new ≡ (codec.write (setup_by n epsilon delta modulus) own station
        (tables_in tables.now) payload.now out.old).buffer }
{
    let setup = Setup {
        n,
        epsilon,
        delta,
        modulus,
    };
    let stamp = tables_of(tables);
    let written = frame::write(setup, own, station as usize, stamp, payload, out);
    pack_written(written.number, written.size)
}

// 02, 2.1: the words. The number in bits 0 to 7, the text's length from bit 8 on. A refusal is the number alone, and writes nothing.
#[unsafe(no_mangle)]
pub extern "C" fn yarngravel_words(
    n: u32,
    epsilon: u32,
    delta: u32,
    modulus: u32,
    own: u32,
    batch: &[u8],
    verdicts: &[u8],
    text: &mut [u8],
) -> u64
    ensures value { result ≡ packed_words (words (setup_by n epsilon delta modulus) own batch.now verdicts.now
        text.old) }
    ensures text_after { text.new ≡ (words (setup_by n epsilon delta modulus) own batch.now verdicts.now
        text.old).text }
{
    let setup = Setup {
        n,
        epsilon,
        delta,
        modulus,
    };
    let told = write_words(setup, own, batch, verdicts, text);
    pack_written(told.number, told.size)
}

// 02, 2.4: the comparison. The number in bits 0 to 7, which frame is first in 8 to 15 (0 the first, 1 the second, 2 they are alike),
// what decided in 16 to 23 (0 nothing, 1 sum, 2 count, 3 station, 4 r), the count's clock in 32 to 47. A refusal is the number alone.
#[unsafe(no_mangle)]
pub extern "C" fn yarngravel_compare(
    n: u32,
    epsilon: u32,
    delta: u32,
    modulus: u32,
    own: u32,
    clock: u32,
    first: &[u8],
    second: &[u8],
) -> u64
    ensures { result ≡ packed_comparison (compare_call (setup_by n epsilon delta modulus) own clock first.now second.now) }
{
    let setup = Setup {
        n,
        epsilon,
        delta,
        modulus,
    };
    let compared = compare_call(setup, own, clock as usize, first, second);
    pack_compared(compared)
}

// 02, 2.5: the poll, at the clock of the last tick. The number in bits 0 to 7; bit 8 set if something is next, its due clock modulo B in
// 16 to 31; how many frames are due at most `within` ticks after the clock, in 32 to 47. A refusal is the number alone.
#[unsafe(no_mangle)]
pub extern "C" fn yarngravel_poll(
    n: u32,
    epsilon: u32,
    delta: u32,
    modulus: u32,
    own: u32,
    clock: u32,
    within: u16,
    holdback: &[u8],
) -> u64
    ensures { result ≡ packed_poll (poll (setup_by n epsilon delta modulus) own clock within holdback.now) }
{
    let setup = Setup {
        n,
        epsilon,
        delta,
        modulus,
    };
    let polled = polling::poll(setup, own, clock as usize, within, holdback);
    pack_polled(polled)
}

// 02, 2.6: one call of an observer. The number in bits 0 to 7, 01's mend in 8 to 15, frames taken in 16 to 23, 0 in 24 to 31, frames handed
// out in 32 to 47; its last clock is two bytes, the low one first. A refusal is the number alone, and changes nothing.
#[unsafe(no_mangle)]
pub extern "C" fn yarngravel_listen(
    n: u32,
    epsilon: u32,
    delta: u32,
    modulus: u32,
    clock: u32,
    last: &mut [u8; 2],
    holdback: &mut [u8],
    batch: &[u8],
    verdicts: &mut [u8],
    delivery: &mut [u8],
) -> u64
    ensures { returned_listening result last.new holdback.new verdicts.new delivery.new
        ≡ packed_listening (observers.listen (listening_by (setup_by n epsilon delta modulus) clock last.old holdback.old
        batch.now verdicts.old delivery.old)) }
{
    let setup = Setup {
        n,
        epsilon,
        delta,
        modulus,
    };
    let v = clock as usize;
    let given = last_of(last);
    let heard = observer::listen(setup, v, given, holdback, batch, verdicts, delivery);
    if heard.number != 0 {
        return heard.number as u64;
    }
    splice::put_u16(last, 0, heard.last);
    pack_listened(heard)
}

// The tables of a station that starts fresh at a clock: the tick after it is for a clock 1 to epsilon later. Answers 0, or the number of
// the check that fails, 1 or 2, and then changes nothing.
#[unsafe(no_mangle)]
pub extern "C" fn yarngravel_fresh(
    n: u32,
    epsilon: u32,
    delta: u32,
    modulus: u32,
    own: u32,
    clock: u32,
    tables: &mut [u8; 35],
) -> u64
    ensures value { result ≡ fresh_number (setup_by n epsilon delta modulus) own clock }
    ensures tables_after { tables.new ≡ fresh_bytes (setup_by n epsilon delta modulus) own clock tables.old }
{
    let setup = Setup {
        n,
        epsilon,
        delta,
        modulus,
    };
    if !valid_for(setup, own) {
        return BAD_SETUP as u64;
    }
    if modulus <= clock {
        return BAD_CLOCK as u64;
    }
    let stamp = Timestamp::fresh(epsilon as usize, clock as usize);
    put_tables(tables, stamp);
    0
}

// 02, 2.6: the last clock of an observer that starts at a clock, in two bytes, the low one first: its first call is for a clock 1 to epsilon
// later. Answers 0, or the number of the check that fails, 1 or 2, and then changes nothing.
#[unsafe(no_mangle)]
pub extern "C" fn yarngravel_fresh_last(
    n: u32,
    epsilon: u32,
    delta: u32,
    modulus: u32,
    clock: u32,
    last: &mut [u8; 2],
) -> u64
    ensures value { result ≡ fresh_last_number (setup_by n epsilon delta modulus) clock }
    ensures last_after { last.new ≡ fresh_last_bytes (setup_by n epsilon delta modulus) clock last.old }
{
    let setup = Setup {
        n,
        epsilon,
        delta,
        modulus,
    };
    if !in_limits(setup) {
        return BAD_SETUP as u64;
    }
    if setup.modulus <= clock {
        return BAD_CLOCK as u64;
    }
    splice::put_u16(last, 0, clock as usize);
    0
}

// The version of the library: major, minor and patch in a byte each, the patch lowest.
#[unsafe(no_mangle)]
pub extern "C" fn yarngravel_version() -> u32
    ensures { result ≡ version }
{
    0x020d01
}
