// 02, 2.10: the calls with both pairs of limits. Their setup is nine numbers: n, epsilon, delta, modulus and own, as of a plain call, then the wider
// epsilon and delta, the change (V modulo B) and the mark. Each answers as its plain one, and asks 19 right behind 1.
ghost use Rattle.std.specs.Prelude.{◌≡◌, cond};
ghost use Rattle.model.specs.Wider.{tick_in};
ghost use Rattle.model.specs.WiderCalls.{listen_in, poll_in, compare_in, read_in, write_in};
ghost use Rattle.setup.specs.Views.{setup_of};
ghost use Rattle.pairs.specs.Views.{wider_of};
ghost use Rattle.widerwords.specs.Words.{words_in};
ghost use Rattle.abi.specs.Packing.{input_by, tables_in, returned, packed, packed_write, packed_words, packed_comparison, packed_poll, listening_by, returned_listening, packed_listening};
ghost use Rattle.abi.specs.Both.{setup_in, own_in, wider_in, packed_read_in, read_tables_in};
ghost use Rattle.abi.specs.Fresh.{fresh_in_number, fresh_in_bytes};

use crate::packing::{
    last_of, pack_answer, pack_compared, pack_listened, pack_polled, pack_reading, pack_written,
    put_tables, tables_of,
};
use pairs::{Wider, check_fresh, fresh_tables};
use setup::Setup;
use widercomparing::compare_in;
use widerframe::{payload_in, read_in, write_in};
use widernode::tick_in;
use widerobserver::listen_in;
use widerpolling::poll_in;
use widerwords::write_words_in;

// The old pair, with n and B.
fn setup_of(numbers: &[u32; 9]) -> Setup
    ensures { setup_of result ≡ setup_in numbers.now }
{
    Setup {
        n: numbers[0],
        epsilon: numbers[1],
        delta: numbers[2],
        modulus: numbers[3],
    }
}

// The own number.
fn own_of(numbers: &[u32; 9]) -> u32
    ensures { result ≡ own_in numbers.now }
{
    numbers[4]
}

// What stands beside the old setup.
fn wider_of(numbers: &[u32; 9]) -> Wider
    ensures { wider_of result ≡ wider_in numbers.now }
{
    Wider {
        epsilon: numbers[5],
        delta: numbers[6],
        change: numbers[7],
        marked: numbers[8],
    }
}

// The tick. Shelf and hand-out buffer have the lengths of the wider pair.
#[unsafe(no_mangle)]
pub extern "C" fn yarngravel_tick_in(
    setup: &[u32; 9],
    clock: u32,
    tables: &mut [u8; 35],
    holdback: &mut [u8],
    batch: &[u8],
    send: bool,
    payload: &[u8],
    outgoing: &mut [u8],
    verdicts: &mut [u8],
    delivery: &mut [u8],
) -> u64
    ensures { returned result tables.new holdback.new outgoing.new verdicts.new delivery.new
        ≡ packed (tick_in (wider_in setup.now) (input_by (setup_in setup.now) (own_in setup.now) clock tables.old
        holdback.old batch.now send payload.now outgoing.old verdicts.old delivery.old)) }
{
    let own = own_of(setup);
    let before = setup_of(setup);
    let wider = wider_of(setup);
    let given = tables_of(tables);
    let answer = tick_in(
        before,
        wider,
        own,
        clock as usize,
        given,
        holdback,
        batch,
        send,
        payload,
        outgoing,
        verdicts,
        delivery,
    );
    if answer.number != 0 {
        return answer.number as u64;
    }
    let stamp = answer.tables;
    put_tables(tables, stamp);
    pack_answer(answer)
}

// One call of an observer: "A listener changes setups as a station does". The own number is not looked at.
#[unsafe(no_mangle)]
pub extern "C" fn yarngravel_listen_in(
    setup: &[u32; 9],
    clock: u32,
    last: &mut [u8; 2],
    holdback: &mut [u8],
    batch: &[u8],
    verdicts: &mut [u8],
    delivery: &mut [u8],
) -> u64
    ensures { returned_listening result last.new holdback.new verdicts.new delivery.new
        ≡ packed_listening (listen_in (wider_in setup.now) (listening_by (setup_in setup.now) clock last.old holdback.old
        batch.now verdicts.old delivery.old)) }
{
    let before = setup_of(setup);
    let wider = wider_of(setup);
    let v = clock as usize;
    let given = last_of(last);
    let heard = listen_in(before, wider, v, given, holdback, batch, verdicts, delivery);
    if heard.number != 0 {
        return heard.number as u64;
    }
    splice::put_u16(last, 0, heard.last);
    pack_listened(heard)
}

// The poll, at the clock of the last tick.
#[unsafe(no_mangle)]
pub extern "C" fn yarngravel_poll_in(
    setup: &[u32; 9],
    clock: u32,
    within: u16,
    holdback: &[u8],
) -> u64
    ensures { result ≡ packed_poll (poll_in (setup_in setup.now) (wider_in setup.now) (own_in setup.now) clock within holdback.now) }
{
    let own = own_of(setup);
    let before = setup_of(setup);
    let wider = wider_of(setup);
    let polled = poll_in(before, wider, own, clock as usize, within, holdback);
    pack_polled(polled)
}

// The comparison, which judges as a tick for that clock.
#[unsafe(no_mangle)]
pub extern "C" fn yarngravel_compare_in(
    setup: &[u32; 9],
    clock: u32,
    first: &[u8],
    second: &[u8],
) -> u64
    ensures { result ≡ packed_comparison (compare_in (setup_in setup.now) (wider_in setup.now) (own_in setup.now) clock first.now second.now) }
{
    let own = own_of(setup);
    let before = setup_of(setup);
    let wider = wider_of(setup);
    let compared = compare_in(before, wider, own, clock as usize, first, second);
    pack_compared(compared)
}

// The tables of a station that starts fresh at a clock, of the width of that clock. Answers 0, or the number of the check that fails, 1, 19 or 2, and then
// changes nothing.
#[unsafe(no_mangle)]
pub extern "C" fn yarngravel_fresh_in(setup: &[u32; 9], clock: u32, tables: &mut [u8; 35]) -> u64
    ensures value { result ≡ fresh_in_number (setup_in setup.now) (wider_in setup.now) (own_in setup.now) clock }
    ensures tables_after { tables.new ≡ fresh_in_bytes (setup_in setup.now) (wider_in setup.now) (own_in setup.now) clock tables.old }
{
    let own = own_of(setup);
    let before = setup_of(setup);
    let wider = wider_of(setup);
    let v = clock as usize;
    let number = check_fresh(before, wider, own, v);
    if number != 0 {
        return number as u64;
    }
    let stamp = fresh_tables(before, wider, v);
    put_tables(tables, stamp);
    0
}

// Bit 48 of the reader's answer.
fn wide_bit(wide: bool) -> u64
    ensures { result ≡ cond wide 281474976710656 0 }
{
    if wide { 281474976710656 } else { 0 }
}

// The reader, which has no clock and reads both widths. Bit 48 is set where the frame has more than 2ε counts; the tables get all that it has.
#[unsafe(no_mangle)]
pub extern "C" fn yarngravel_read_in(setup: &[u32; 9], frame: &[u8], tables: &mut [u8; 35]) -> u64
    ensures value { result ≡ packed_read_in (setup_in setup.now) (wider_in setup.now)
        (read_in (setup_in setup.now) (wider_in setup.now) (own_in setup.now) frame.now) }
    ensures tables_after { tables.new
        ≡ read_tables_in (read_in (setup_in setup.now) (wider_in setup.now) (own_in setup.now) frame.now) tables.old }
{
    let own = own_of(setup);
    let before = setup_of(setup);
    let wider = wider_of(setup);
    let reading = read_in(before, wider, own, frame);
    let contents = reading.frame;
    if contents.number != 0 {
        return contents.number as u64;
    }
    let stamp = contents.stamp;
    put_tables(tables, stamp);
    let payload = payload_in(before, wider, own, frame);
    let size = payload.len();
    let word = pack_reading(contents.station, frame.len() - size, size);
    word + wide_bit(reading.wide)
}

// The writer: 2ε' counts where the frame is to be `wide`, else 2ε.
#[unsafe(no_mangle)]
pub extern "C" fn yarngravel_write_in(
    setup: &[u32; 9],
    station: u32,
    wide: bool,
    tables: &[u8; 35],
    payload: &[u8],
    out: &mut [u8],
) -> u64
    ensures value { result ≡ packed_write (write_in (setup_in setup.now) (wider_in setup.now) (own_in setup.now) station wide
        (tables_in tables.now) payload.now out.old) }
    ensures out_after { out.new ≡ (write_in (setup_in setup.now) (wider_in setup.now) (own_in setup.now) station wide
        (tables_in tables.now) payload.now out.old).buffer }
{
    let own = own_of(setup);
    let before = setup_of(setup);
    let wider = wider_of(setup);
    let stamp = tables_of(tables);
    let written = write_in(
        before,
        wider,
        own,
        station as usize,
        wide,
        stamp,
        payload,
        out,
    );
    pack_written(written.number, written.size)
}

// The words of 2.1, which print the limits of the mark's side.
#[unsafe(no_mangle)]
pub extern "C" fn yarngravel_words_in(
    setup: &[u32; 9],
    batch: &[u8],
    verdicts: &[u8],
    text: &mut [u8],
) -> u64
    ensures value { result ≡ packed_words (words_in (setup_in setup.now) (wider_in setup.now) (own_in setup.now) batch.now
        verdicts.now text.old) }
    ensures text_after { text.new ≡ (words_in (setup_in setup.now) (wider_in setup.now) (own_in setup.now) batch.now
        verdicts.now text.old).text }
{
    let own = own_of(setup);
    let before = setup_of(setup);
    let wider = wider_of(setup);
    let told = write_words_in(before, wider, own, batch, verdicts, text);
    pack_written(told.number, told.size)
}
