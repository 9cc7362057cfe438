// The lines of a tick and of a refusal.
ghost use Rattle.std.specs.Prelude.{◌≡◌, [], ◌+◌, ◌≤◌, ◌<◌, ◌^◌, leb, length, drop};
ghost use Rattle.model.specs.Frame.{frame_end};
ghost use Rattle.model.specs.Comparison.{compared};
ghost use Rattle.text.specs.Text.{Put};
ghost use Rattle.setup.specs.Views.{setup_of};
ghost use Rattle.timestamp.specs.Ranks.{comparison_of};
ghost use Rattle.trace.specs.Views.{Given, Two};
ghost use Rattle.trace.specs.Text.{flag, tick_line, give_after, give_lines, frame_bytes, frame_from, tick_lines, refused_line, text_written, text_end};
ghost use Rattle.trace.specs.Replay.{stopped};

use crate::parts::{payload_size, put_fields, put_give};
use crate::reasons::decided_size;
use comparing::compare_frames;
use frame::{frame_end, payload_part, r_of, station_of};
use setup::Setup;
use splice::{part, two_at};
use text::{digit_count, put_field, put_word};
use timestamp::Comparison;

// What a tick line says: 01's clock, mend, c, taken, outgoing length (0 if none), handed out.
#[derive(Clone, Copy)]
pub struct TickNumbers {
    pub clock: usize,
    pub repair: usize,
    pub c: usize,
    pub taken: usize,
    pub sent: usize,
    pub delivered: usize,
}

// 01: "sent (1 or 0)".
fn flag_of(sent: usize) -> usize
    ensures { result ≡ flag sent }
{
    if sent == 0 {
        return 0;
    }
    1
}

// How long the tick line is.
fn tick_size(f: TickNumbers) -> usize
    ensures { result ≡ length (tick_line f.clock f.repair f.c f.taken f.sent f.delivered) }
{
    let first = digit_count(f.clock) + digit_count(f.repair) + digit_count(f.c);
    34 + first + digit_count(f.taken) + digit_count(f.delivered)
}

// 01: "A tick line has clock, mend, c, taken, sent (1 or 0), handed out".
fn put_tick(buf: &mut [u8], at: usize, f: TickNumbers) -> usize
    requires { at + length (tick_line f.clock f.repair f.c f.taken f.sent f.delivered) ≤ length buf.old }
    ensures { Put buf.old at (tick_line f.clock f.repair f.c f.taken f.sent f.delivered) buf.new result }
{
    let sent = flag_of(f.sent);
    let after_c = put_fields(buf, at, b"tick ", f.clock, b" mend ", f.repair, b" c ", f.c);
    let after_delivered = put_fields(
        buf,
        after_c,
        b" took ",
        f.taken,
        b" sent ",
        sent,
        b" gave ",
        f.delivered,
    );
    put_word(buf, after_delivered, b"\n")
}

// The bytes of a delivery from a position on.
fn rest_at(delivery: &[u8], at: usize) -> &[u8]
    ensures { result.now ≡ drop at delivery.now }
{
    part(delivery, at, delivery.len())
}

// Where the frame at a position of a delivery ends.
fn next_frame(delivery: &[u8], at: usize, epsilon: usize) -> usize
    requires { (at < 2 ^ 52) × (epsilon ≤ 16) }
    ensures { (result ≡ at + frame_end epsilon (drop at delivery.now)) × (result ≤ at + 512) }
{
    let rest = rest_at(delivery, at);
    at + frame_end(epsilon, rest)
}

// Its bytes; where the delivery ends before it, those that are there.
fn frame_at(delivery: &[u8], at: usize, epsilon: usize) -> &[u8]
    requires { epsilon ≤ 16 }
    ensures { (result.now ≡ frame_bytes epsilon delivery.now at) × (length result.now ≤ 512) }
{
    let rest = rest_at(delivery, at);
    part(rest, 0, frame_end(epsilon, rest))
}

// 02, 2.4: which of the frames at two positions is first, and what decided.
fn compared_at(setup: Setup, clock: usize, delivery: &[u8], last: usize, at: usize) -> Comparison
    requires { Two (setup_of setup) clock delivery.now last at }
    ensures { comparison_of result
        ≡ compared (setup_of setup) clock (frame_from setup.epsilon delivery.now last) (frame_from setup.epsilon delivery.now at) }
{
    let epsilon = setup.epsilon as usize;
    let f = frame_at(delivery, last, epsilon);
    let g = frame_at(delivery, at, epsilon);
    compare_frames(setup, clock, f, g)
}

// How long the give line of the frame at a position is, after that of the frame at `last`.
fn give_size(setup: Setup, clock: usize, delivery: &[u8], last: usize, at: usize) -> usize
    requires { Two (setup_of setup) clock delivery.now last at }
    ensures { result ≡ length (give_after (setup_of setup) clock (frame_from setup.epsilon delivery.now last) (frame_from setup.epsilon delivery.now at)) }
{
    let epsilon = setup.epsilon as usize;
    let comparison = compared_at(setup, clock, delivery, last, at);
    let frame = frame_at(delivery, at, epsilon);
    let station = station_of(frame);
    let r = r_of(frame);
    let payload = payload_part(epsilon, frame);
    let size = 8 + digit_count(station) + digit_count(r) + payload_size(payload);
    size + decided_size(comparison)
}

// Writes it.
fn put_give_at(
    buf: &mut [u8],
    end: usize,
    setup: Setup,
    clock: usize,
    delivery: &[u8],
    last: usize,
    at: usize,
) -> usize
    requires two { Two (setup_of setup) clock delivery.now last at }
    requires at_in_bounds { end + length (give_after (setup_of setup) clock (frame_from setup.epsilon delivery.now last) (frame_from setup.epsilon delivery.now at)) ≤ length buf.old }
    ensures { Put buf.old end (give_after (setup_of setup) clock (frame_from setup.epsilon delivery.now last) (frame_from setup.epsilon delivery.now at)) buf.new result }
{
    let epsilon = setup.epsilon as usize;
    let comparison = compared_at(setup, clock, delivery, last, at);
    let frame = frame_at(delivery, at, epsilon);
    let station = station_of(frame);
    let r = r_of(frame);
    let payload = payload_part(epsilon, frame);
    put_give(buf, end, station, r, payload, comparison)
}

// Whether the give lines of a delivery have at most `room` bytes. The first frame is compared with itself: nothing decides.
fn gives_fit(setup: Setup, clock: usize, delivery: &[u8], room: usize) -> bool
    requires { Given (setup_of setup) clock delivery.now }
    ensures { result ≡ leb (length (give_lines (setup_of setup) clock delivery.now)) room }
{
    let epsilon = setup.epsilon as usize;
    let mut left = two_at(delivery, 0);
    let mut last = 2;
    let mut at = 2;
    let mut room_left = room;
    while 0 < left {
        let size = give_size(setup, clock, delivery, last, at);
        if room_left < size {
            return false;
        }
        room_left -= size;
        last = at;
        at = next_frame(delivery, at, epsilon);
        left -= 1;
    }
    true
}

// Writes a give line for each frame of a delivery, the first compared with itself.
fn put_gives(buf: &mut [u8], from: usize, setup: Setup, clock: usize, delivery: &[u8]) -> usize
    requires { Given (setup_of setup) clock delivery.now × (from + length (give_lines (setup_of setup) clock delivery.now) ≤ length buf.old) }
    ensures { Put buf.old from (give_lines (setup_of setup) clock delivery.now) buf.new result }
{
    let epsilon = setup.epsilon as usize;
    let mut left = two_at(delivery, 0);
    let mut last = 2;
    let mut at = 2;
    let mut end = from;
    while 0 < left {
        end = put_give_at(buf, end, setup, clock, delivery, last, at);
        last = at;
        at = next_frame(delivery, at, epsilon);
        left -= 1;
    }
    end
}

// Writes the lines of a tick at a position, and answers where they end; 0, and nothing is written,
// where there is no room for all of them.
pub fn put_lines(buf: &mut [u8], at: usize, f: TickNumbers, setup: Setup, delivery: &[u8]) -> usize
    requires { Given (setup_of setup) f.clock delivery.now }
    ensures value { result ≡ text_end buf.old at (tick_lines f.clock f.repair f.c f.taken f.sent f.delivered (setup_of setup) delivery.now) }
    ensures buf_after { buf.new ≡ text_written buf.old at (tick_lines f.clock f.repair f.c f.taken f.sent f.delivered (setup_of setup) delivery.now) }
{
    let size = tick_size(f);
    if buf.len() < at {
        return 0;
    }
    let room = buf.len() - at;
    if room < size {
        return 0;
    }
    if !gives_fit(setup, f.clock, delivery, room - size) {
        return 0;
    }
    let end = put_tick(buf, at, f);
    put_gives(buf, end, setup, f.clock, delivery)
}

// Writes the line of a refusal, as `put_lines` does those of a tick.
fn put_refused(buf: &mut [u8], at: usize, number: u8) -> usize
    ensures value { result ≡ text_end buf.old at (refused_line number) }
    ensures buf_after { buf.new ≡ text_written buf.old at (refused_line number) }
{
    let x = number as usize;
    let size = 9 + digit_count(x);
    if buf.len() < at {
        return 0;
    }
    if buf.len() - at < size {
        return 0;
    }
    let end = put_field(buf, at, b"refused ", x);
    put_word(buf, end, b"\n")
}

// Writes what the program ends with at the start of a buffer: the line of a refusal, or nothing
// for 0.
pub fn put_stopped(buf: &mut [u8], number: u8) -> usize
    ensures value { result ≡ text_end buf.old 0 (stopped number []) }
    ensures buf_after { buf.new ≡ text_written buf.old 0 (stopped number []) }
{
    if number == 0 {
        return 0;
    }
    put_refused(buf, 0, number)
}
