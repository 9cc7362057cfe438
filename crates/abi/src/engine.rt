// 02, 2.9: the boundary to C of an engine with long clocks: as a station's, but "its setup has no B". The clock is a number of 64 bits; the
// tables are a pointer to 41 bytes (r in eight, low first, c, 32 counts). Any arguments get an answer.
ghost use Rattle.std.specs.Prelude.{◌≡◌};
ghost use Rattle.model.specs.Long.{long_tick, long_read, long_write};
ghost use Rattle.abi.specs.Fresh.{long_fresh_number, long_fresh_bytes};
ghost use Rattle.abi.specs.Packing.{long_setup_by, long_input_by, long_tables_in, returned, long_packed, long_packed_read, long_read_tables, packed_write};

use crate::packing::{long_tables_of, pack_answer, pack_reading, pack_written, put_long_tables};
use long::tick;
use longframe::{BOUND, valid_for};
use setup::{BAD_CLOCK, BAD_SETUP, Setup};
use timestamp::Timestamp;

// One tick of an engine. The answer is as of `yarngravel_tick`. A refusal is the number alone, and changes nothing.
#[unsafe(no_mangle)]
pub extern "C" fn yarngravel_long_tick(
    n: u32,
    epsilon: u32,
    delta: u32,
    own: u32,
    clock: u64,
    tables: &mut [u8; 41],
    holdback: &mut [u8],
    batch: &[u8],
    send: bool,
    payload: &[u8],
    outgoing: &mut [u8],
    verdicts: &mut [u8],
    delivery: &mut [u8],
) -> u64
    ensures { returned result tables.new holdback.new outgoing.new verdicts.new delivery.new
        ≡ long_packed (long_tick (long_input_by (long_setup_by n epsilon delta) own clock tables.old holdback.old
        batch.now send payload.now outgoing.old verdicts.old delivery.old)) }
{
    let setup = Setup {
        n,
        epsilon,
        delta,
        modulus: 0,
    };
    let given = long_tables_of(tables);
    let answer = tick(
        setup,
        own,
        clock as usize,
        given,
        holdback,
        batch,
        send,
        payload,
        outgoing,
        verdicts,
        delivery,
    );
    if answer.number != 0 {
        return answer.number as u64;
    }
    let stamp = answer.tables;
    put_long_tables(tables, stamp);
    pack_answer(answer)
}

// An engine's reader. The answer is as of `yarngravel_read`; the tables get r, c and the counts. A refusal is the number alone, and writes nothing.
#[unsafe(no_mangle)]
pub extern "C" fn yarngravel_long_read(
    n: u32,
    epsilon: u32,
    delta: u32,
    own: u32,
    frame: &[u8],
    tables: &mut [u8; 41],
) -> u64
    ensures value { result ≡ long_packed_read epsilon (long_read (long_setup_by n epsilon delta) own frame.now) }
    ensures tables_after { tables.new
        ≡ long_read_tables (long_read (long_setup_by n epsilon delta) own frame.now) tables.old }
{
    let setup = Setup {
        n,
        epsilon,
        delta,
        modulus: 0,
    };
    let reading = longframe::read(setup, own, frame);
    if reading.number != 0 {
        return reading.number as u64;
    }
    let stamp = reading.stamp;
    put_long_tables(tables, stamp);
    let payload = longframe::payload_of(setup, own, frame);
    let size = payload.len();
    pack_reading(reading.station, frame.len() - size, size)
}

// An engine's writer. The answer is as of `yarngravel_write`. A refusal is the number alone, and writes nothing.
#[unsafe(no_mangle)]
pub extern "C" fn yarngravel_long_write(
    n: u32,
    epsilon: u32,
    delta: u32,
    own: u32,
    station: u32,
    tables: &[u8; 41],
    payload: &[u8],
    out: &mut [u8],
) -> u64
    ensures value { result ≡ packed_write (long_write (long_setup_by n epsilon delta) own station
        (long_tables_in tables.now) payload.now out.old) }
    ensures out_after { out.new ≡ (long_write (long_setup_by n epsilon delta) own station
        (long_tables_in tables.now) payload.now out.old).buffer }
{
    let setup = Setup {
        n,
        epsilon,
        delta,
        modulus: 0,
    };
    let stamp = long_tables_of(tables);
    let written = longframe::write(setup, own, station as usize, stamp, payload, out);
    pack_written(written.number, written.size)
}

// The tables of an engine that starts fresh at a clock: the tick after it is for a clock 1 to epsilon later. Answers 0, or the number of
// the check that fails, 1 or 2, and then changes nothing.
#[unsafe(no_mangle)]
pub extern "C" fn yarngravel_long_fresh(
    n: u32,
    epsilon: u32,
    delta: u32,
    own: u32,
    clock: u64,
    tables: &mut [u8; 41],
) -> u64
    ensures value { result ≡ long_fresh_number (long_setup_by n epsilon delta) own clock }
    ensures tables_after { tables.new ≡ long_fresh_bytes (long_setup_by n epsilon delta) own clock tables.old }
{
    let setup = Setup {
        n,
        epsilon,
        delta,
        modulus: 0,
    };
    if !valid_for(setup, own) {
        return BAD_SETUP as u64;
    }
    let v = clock as usize;
    if BOUND <= v {
        return BAD_CLOCK as u64;
    }
    let stamp = Timestamp::fresh(epsilon as usize, v);
    put_long_tables(tables, stamp);
    0
}
