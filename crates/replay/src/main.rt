// 01, "The replay program": a node's ticks from a trace on standard input, and their lines on
// standard output, those of each tick before the next is read.

#![tactic(auto)]

ghost use Rattle.std.specs.Prelude.{◌≡◌, true, ◌≤◌, length};
ghost use Rattle.trace.specs.Views.{node_setup_of};
ghost use Rattle.trace.specs.Trace.{tick_end, longest_tick};
ghost use Rattle.playing.specs.Playing.{Ready, among, run_numbers, replay_numbers};
ghost use Rattle.input.specs.Coming.{Came};
ghost use Rattle.replay.specs.Running.{Begun, Ran};

use input::read_next;
use playing::play_next;
use setup::holdback_length;
use stations::Station;
use std::io::{Read, Write};
use timestamp::Timestamp;
use trace::{
    COUNT_LENGTH, NodeSetup, SETUP_LENGTH, count_number, end_number, put_stopped, read_setup,
    setup_number, tick_count, tick_end,
};

// Reads one tick into `bytes`, and answers how many came: fewer than the tick has where the trace
// is cut. No byte past the tick is read.
fn read_tick<R: Read>(reader: &mut R, bytes: &mut [u8]) -> usize
    requires { longest_tick ≤ length bytes.old }
    ensures { Came tick_end bytes.old bytes.new result }
{
    let mut used = 0;
    let mut end = tick_end(&bytes[..0]);
    while used < end {
        used += read_next(reader, &mut bytes[used..end]);
        if used < end {
            return used;
        }
        end = tick_end(&bytes[..used]);
    }
    used
}

// The ticks of a trace so far: 0, or the number of the refusal at which they stopped, and the station
// after them.
#[derive(Drop)]
struct Progress {
    pub number: u8,
    pub station: Station,
}

// Plays `ticks` ticks as they come, the first fresh, and then looks whether there are more bytes. It
// stops at a tick that is refused. Lines that cannot be written stop it too, with 0: nothing more is
// read or called.
fn play_ticks<R: Read, W: Write>(
    reader: &mut R,
    writer: &mut W,
    node: NodeSetup,
    ticks: usize,
    holdback: &mut [u8],
    bytes: &mut [u8],
    text: &mut [u8],
) -> Progress
    requires { Begun (node_setup_of node) holdback.old bytes.old text.old }
    ensures ran { Ran (node_setup_of node) ticks result holdback.new }
    ensures number_value { among run_numbers result.number ≡ true }
{
    let tables = Timestamp::replaced(0);
    let mut station = Station { ticks: 0, tables };
    while station.ticks < ticks {
        let used = read_tick(reader, bytes);
        let played = play_next(node, station, holdback, &bytes[..used], text);
        station = played.station;
        if played.number != 0 {
            return Progress {
                number: played.number,
                station,
            };
        }
        if writer.write_all(&text[..played.size]).is_err() {
            return Progress { number: 0, station };
        }
    }
    let mut more = [0u8; 1];
    Progress {
        number: end_number(read_next(reader, &mut more)),
        station,
    }
}

// All that follows the setup. Answers 0, or the number of the refusal at which it stopped.
fn run<R: Read, W: Write>(reader: &mut R, writer: &mut W, node: NodeSetup) -> u8
    requires { Ready (node_setup_of node) }
    ensures { among run_numbers result ≡ true }
{
    let mut head = [0u8; COUNT_LENGTH];
    let got = read_next(reader, &mut head);
    let cut = count_number(&head[..got]);
    if cut != 0 {
        return cut;
    }
    let ticks = tick_count(&head[..got]);
    let setup = node.setup;
    let size = holdback_length(
        setup.n as usize,
        setup.epsilon as usize,
        setup.delta as usize,
    );
    let mut held = [0u8; 65536];
    let mut read = [0u8; 65540];
    let mut lines = [0u8; 131072];
    let end = play_ticks(
        reader,
        writer,
        node,
        ticks,
        &mut held[..size],
        &mut read,
        &mut lines,
    );
    end.number
}

// The whole trace, but for the line of a refusal.
fn replay<R: Read, W: Write>(reader: &mut R, writer: &mut W) -> u8
    ensures { among replay_numbers result ≡ true }
{
    let mut head = [0u8; SETUP_LENGTH];
    let got = read_next(reader, &mut head);
    let number = setup_number(&head[..got], SETUP_LENGTH);
    if number != 0 {
        return number;
    }
    run(reader, writer, read_setup(&head[..got]))
}

fn main(rt: HostRuntime) {
    let mut reader = rt.stdin();
    let mut writer = rt.stdout();
    let mut line = [0u8; 16];
    let size = put_stopped(&mut line, replay(&mut reader, &mut writer));
    // written or not, nothing follows
    let _ = writer.write_all(&line[..size]);
}
