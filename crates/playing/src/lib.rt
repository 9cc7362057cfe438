// One tick of a station, given by its bytes in a trace: called, and its lines rendered.

#![tactic(auto)]

ghost use Rattle.std.specs.Prelude.{◌≡◌, suc, ◌<◌, ◌^◌};
ghost use Rattle.timestamp.specs.Views.{stamp_of};
ghost use Rattle.trace.specs.Views.{node_setup_of};
ghost use Rattle.trace.specs.Replay.{tables_at, turn, turn_at};
ghost use Rattle.playing.specs.Playing.{Ready, Prepared, refused_by, figures_by, result_of, result_by};

use node::{Answer, tick};
use setup::VERDICT_LENGTH;
use stations::Station;
use timestamp::Timestamp;
use trace::{NodeSetup, TickNumbers, batch_of, one_before, payload_of, put_lines, read_call};

// The tables with which a tick starts that has `i` ticks before it. 01: "It starts fresh one before
// the first clock", which is read from the first tick's `bytes`; a later tick has those that the one
// before left.
fn tables_at(i: usize, node: NodeSetup, tables: Timestamp, bytes: &[u8]) -> Timestamp
    requires { Ready (node_setup_of node) }
    ensures { stamp_of result ≡ tables_at i (node_setup_of node) (stamp_of tables) bytes.now }
{
    if 0 < i {
        return tables;
    }
    let setup = node.setup;
    let call = read_call(bytes);
    let clock = one_before(setup.modulus as usize, call.clock);
    Timestamp::fresh(setup.epsilon as usize, clock)
}

// What a tick comes to, beside the hold-back queue and the text.
#[derive(Drop)]
pub struct Played {
    // 0, or the number of its refusal
    pub number: u8,
    // after the tick
    pub station: Station,
    // how many bytes its lines have
    pub size: usize,
    // how long the frame is that is sent, 0 if none, and the buffer in which it stands
    pub sent: usize,
    pub outgoing: [u8; 71],
    pub verdicts: [u8; 255],
}

// A tick that is refused has no lines, sends nothing and judges nothing.
fn refused(number: u8, station: Station) -> Played
    ensures { result ≡ refused_by number station }
{
    Played {
        number,
        station,
        size: 0,
        sent: 0,
        outgoing: [0u8; 71],
        verdicts: [0u8; VERDICT_LENGTH],
    }
}

// What the tick line says of an accepted call.
fn tick_numbers_of(clock: usize, answer: Answer) -> TickNumbers
    ensures { result ≡ figures_by clock answer }
{
    let after = answer.tables;
    TickNumbers {
        clock,
        repair: answer.repair as usize,
        c: after.c,
        taken: answer.taken,
        sent: answer.sent,
        delivered: answer.delivered,
    }
}

// One tick, given by its `bytes`. It starts with the tables of `station`, whose count of ticks has it
// already. Its lines are written at the start of `text`.
fn play(
    node: NodeSetup,
    station: Station,
    holdback: &mut [u8],
    bytes: &[u8],
    text: &mut [u8],
) -> Played
    requires { Prepared (node_setup_of node) holdback.old text.old }
    ensures ticks_value { result.station.ticks ≡ station.ticks }
    ensures text_after { result_of result holdback.new text.new
        ≡ result_by (turn (node_setup_of node) (stamp_of station.tables) holdback.old bytes.now) text.old }
{
    let call = read_call(bytes);
    if call.number != 0 {
        return refused(call.number, station);
    }
    let setup = node.setup;
    let before = station.tables;
    let mut outgoing = [0u8; 71];
    let mut verdicts = [0u8; VERDICT_LENGTH];
    let mut delivery = [0u8; 65536];
    let answer = tick(
        setup,
        node.own,
        call.clock,
        before,
        holdback,
        batch_of(bytes),
        call.send,
        payload_of(bytes),
        &mut outgoing,
        &mut verdicts,
        &mut delivery,
    );
    if answer.number != 0 {
        return refused(answer.number, station);
    }
    let tables = answer.tables;
    let sent = answer.sent;
    let size = put_lines(
        text,
        0,
        tick_numbers_of(call.clock, answer),
        setup,
        &delivery,
    );
    Played {
        number: 0,
        station: Station {
            ticks: station.ticks,
            tables,
        },
        size,
        sent,
        outgoing,
        verdicts,
    }
}

// The next tick of a station, given by its `bytes`. Its lines are written at the start of `text`.
pub fn play_next(
    node: NodeSetup,
    station: Station,
    holdback: &mut [u8],
    bytes: &[u8],
    text: &mut [u8],
) -> Played
    requires prepared { Prepared (node_setup_of node) holdback.old text.old }
    requires ticks_bound { suc station.ticks < 2 ^ 64 }
    ensures ticks_value { result.station.ticks ≡ suc station.ticks }
    ensures text_after { result_of result holdback.new text.new
        ≡ result_by (turn_at station.ticks (node_setup_of node) (stamp_of station.tables) holdback.old bytes.now) text.old }
{
    let before = station.tables;
    let tables = tables_at(station.ticks, node, before, bytes);
    let started = Station {
        ticks: station.ticks + 1,
        tables,
    };
    play(node, started, holdback, bytes, text)
}
