// One step of a group: played at its station, its frame kept, its lines written.
ghost use Rattle.std.specs.Prelude.{◌≡◌, true, suc, ◌*◌, ◌<◌, ◌≤◌, ◌^◌, length};
ghost use Rattle.model.specs.Tick.{holdback_size};
ghost use Rattle.splice.specs.Bytes.{pasted};
ghost use Rattle.setup.specs.Views.{setup_of};
ghost use Rattle.timestamp.specs.Views.{stamp_of};
ghost use Rattle.trace.specs.Replay.{turn_at};
ghost use Rattle.playing.specs.Playing.{text_room, result_of, result_by, among, run_numbers};
ghost use Rattle.rehearsal.specs.Step.{station_of};
ghost use Rattle.rehearsal.specs.Group.{step_turn, stepped};
ghost use Rattle.rehearsal.specs.Standing.{new_rehearsal, queue_of, station_at, group_of, moved_by, Standing, Called, Lent, called_by, outcome_of, outcome_by, not_called_by, left_of, left_called, step_left};

use crate::frames::{keep_frame, step_number};
use crate::labels::put_labelled;
use crate::parse::{heard_count, station_of};
use crate::ticks::put_tick;
use playing::{Played, play_next};
use setup::{Setup, VERDICT_LENGTH, holdback_length};
use stations::{MOST, Station, with_station};
use timestamp::Timestamp;
use trace::NodeSetup;

// The group so far, beside the buffers.
#[derive(Clone, Copy)]
pub struct Rehearsal {
    // 02: "The yard's stations stand in one list"; those past the first n are not looked at
    pub stations: [Station; MOST],
    // how many steps were called
    pub steps: usize,
}

// What a step comes to, beside the buffers.
#[derive(Drop)]
pub struct Rehearsed {
    // 0, or the number of its refusal
    pub number: u8,
    // after the step
    pub group: Rehearsal,
    // how many frames it heard, and their verdicts
    pub heard: usize,
    pub verdicts: [u8; VERDICT_LENGTH],
    // how many bytes its lines have
    pub size: usize,
}

// A group in which no step was called. 02: "Each station starts fresh one before its first clock": what
// tables are here is not looked at.
pub fn new_group() -> Rehearsal
    ensures { result ≡ new_rehearsal }
{
    let station = Station {
        ticks: 0,
        tables: Timestamp::replaced(0),
    };
    Rehearsal {
        stations: [station; MOST],
        steps: 0,
    }
}

// The next tick of the station with that number: its own part of the hold-back queues is lent.
fn play_at(
    setup: Setup,
    station: Station,
    at: usize,
    holdbacks: &mut [u8],
    tick: &[u8],
    lines: &mut [u8],
) -> Played
    requires lent { Lent (setup_of setup) at holdbacks.old lines.old }
    requires ticks_bound { suc station.ticks < 2 ^ 64 }
    ensures ticks_value { result.station.ticks ≡ suc station.ticks }
    ensures lines_after { result_of result (queue_of (setup_of setup) holdbacks.new at) lines.new
        ≡ result_by (turn_at station.ticks (record { setup = setup_of setup; own = at }) (stamp_of station.tables) (queue_of (setup_of setup) holdbacks.old at) tick.now) lines.old }
    ensures holdbacks_after { holdbacks.new ≡ pasted holdbacks.old (at * holdback_size (setup_of setup))
        (turn_at station.ticks (record { setup = setup_of setup; own = at }) (stamp_of station.tables) (queue_of (setup_of setup) holdbacks.old at) tick.now).holdback }
{
    let size = holdback_length(
        setup.n as usize,
        setup.epsilon as usize,
        setup.delta as usize,
    );
    let from = at * size;
    let node = NodeSetup {
        setup,
        own: at as u32,
    };
    play_next(
        node,
        station,
        &mut holdbacks[from..from + size],
        tick,
        lines,
    )
}

// The tick of a step: replay's, of its station, with what the latest left it.
fn play_step(
    setup: Setup,
    group: Rehearsal,
    holdbacks: &mut [u8],
    slots: &[u8],
    bytes: &[u8],
    lines: &mut [u8],
) -> Played
    requires called { Called (setup_of setup) group holdbacks.old slots.now bytes.now }
    requires text_room_in_bounds { text_room ≤ length lines.old }
    ensures ticks_value { result.station.ticks ≡ suc (station_at group (station_of bytes.now)).ticks }
    ensures lines_after { result_of result (queue_of (setup_of setup) holdbacks.new (station_of bytes.now)) lines.new
        ≡ result_by (step_turn (setup_of setup) (group_of (setup_of setup) group holdbacks.old slots.now) bytes.now) lines.old }
    ensures holdbacks_after { holdbacks.new ≡ pasted holdbacks.old (station_of bytes.now * holdback_size (setup_of setup))
        (step_turn (setup_of setup) (group_of (setup_of setup) group holdbacks.old slots.now) bytes.now).holdback }
{
    let mut tick = [0u8; 18620];
    let end = put_tick(&mut tick, bytes, slots, group.steps);
    let at = station_of(bytes);
    let stations = group.stations;
    let station = stations[at];
    play_at(setup, station, at, holdbacks, &tick[..end], lines)
}

// 02: "a step changes exactly one of them".
fn moved(group: Rehearsal, at: usize, station: Station) -> Rehearsal
    requires { (at < 16) × (group.steps < 1000) }
    ensures { result ≡ moved_by group at station }
{
    let stations = group.stations;
    Rehearsal {
        stations: with_station(stations, at, station),
        steps: group.steps + 1,
    }
}

// A step that can be called. Its lines are written at the start of `text`. Every byte that it leaves is
// promised, then what that is in the terms of a group.
fn call_step(
    setup: Setup,
    group: Rehearsal,
    holdbacks: &mut [u8],
    slots: &mut [u8],
    bytes: &[u8],
    text: &mut [u8],
) -> Rehearsed
    requires called { Called (setup_of setup) group holdbacks.old slots.old bytes.now }
    requires text_room_in_bounds { 4 * text_room ≤ length text.old }
    ensures text_after { left_of result holdbacks.new slots.new text.new
        ≡ left_called (setup_of setup) group holdbacks.old slots.old bytes.now text.old
        (step_turn (setup_of setup) (group_of (setup_of setup) group holdbacks.old slots.old) bytes.now) }
    ensures text_after_2 { outcome_of (setup_of setup) result holdbacks.new slots.new text.new
        ≡ outcome_by (called_by (setup_of setup) (group_of (setup_of setup) group holdbacks.old slots.old) bytes.now) text.old }
    ensures standing { Standing (setup_of setup) result.group holdbacks.new slots.new }
    ensures heard_bound { result.heard ≤ 255 }
    ensures number_value { among run_numbers result.number ≡ true }
{
    let mut lines = [0u8; 131072];
    let played = play_step(setup, group, holdbacks, slots, bytes, &mut lines);
    let at = station_of(bytes);
    let size = put_labelled(text, at, &lines[..played.size]);
    let outgoing = played.outgoing;
    keep_frame(slots, group.steps, &outgoing, played.sent);
    let verdicts = played.verdicts;
    Rehearsed {
        number: played.number,
        group: moved(group, at, played.station),
        heard: heard_count(bytes),
        verdicts,
        size,
    }
}

// Bytes that are no step of this group: nothing is called.
fn not_called(number: u8, group: Rehearsal) -> Rehearsed
    ensures { result ≡ not_called_by number group }
{
    Rehearsed {
        number,
        group,
        heard: 0,
        verdicts: [0u8; VERDICT_LENGTH],
        size: 0,
    }
}

// One step of a group, given by its `bytes`. Its lines are written at the start of `text`. Every byte
// that it leaves is promised, then what that is in the terms of a group.
pub fn rehearse_step(
    setup: Setup,
    group: Rehearsal,
    holdbacks: &mut [u8],
    slots: &mut [u8],
    bytes: &[u8],
    text: &mut [u8],
) -> Rehearsed
    requires standing { Standing (setup_of setup) group holdbacks.old slots.old }
    requires steps_bound { (group.steps < 1000) × (4 * text_room ≤ length text.old) }
    ensures text_after { left_of result holdbacks.new slots.new text.new
        ≡ step_left (setup_of setup) group holdbacks.old slots.old bytes.now text.old }
    ensures text_after_2 { outcome_of (setup_of setup) result holdbacks.new slots.new text.new
        ≡ outcome_by (stepped (setup_of setup) (group_of (setup_of setup) group holdbacks.old slots.old) bytes.now) text.old }
    ensures standing_2 { Standing (setup_of setup) result.group holdbacks.new slots.new }
    ensures heard_bound { result.heard ≤ 255 }
    ensures number_value { among run_numbers result.number ≡ true }
{
    let number = step_number(bytes, setup.n as usize, slots, group.steps);
    if number != 0 {
        return not_called(number, group);
    }
    call_step(setup, group, holdbacks, slots, bytes, text)
}
