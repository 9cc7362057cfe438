// 02, 2.8, "Rehearse the whole yard": the steps of all stations from a trace on standard input, and
// their lines on standard output, those of each step before the next is read.

#![tactic(auto)]

ghost use Rattle.std.specs.Prelude.{◌≡◌, true, ◌≤◌, length, drop};
ghost use Rattle.setup.specs.Views.{setup_of};
ghost use Rattle.playing.specs.Playing.{among, run_numbers, replay_numbers};
ghost use Rattle.input.specs.Coming.{Came};
ghost use Rattle.rehearsal.specs.Step.{step_end, longest_step};
ghost use Rattle.yard.specs.Running.{Usable, Begun, Ran, Ended};

use input::read_next;
use rehearsal::{
    GROUP_SETUP_LENGTH, Rehearsal, new_group, note_verdicts, put_figures, rehearse_step, step_end,
    steps_number,
};
use setup::Setup;
use std::io::{Read, Write};
use trace::{COUNT_LENGTH, end_number, put_stopped, read_setup, setup_number, tick_count};

// Reads one step into `bytes`, and answers how many came: fewer than the step has where the trace
// is cut. No byte past the step is read.
fn read_step<R: Read>(reader: &mut R, bytes: &mut [u8]) -> usize
    requires { longest_step ≤ length bytes.old }
    ensures came { Came step_end bytes.old bytes.new result }
    ensures rest_unchanged { drop longest_step bytes.new ≡ drop longest_step bytes.old }
{
    let mut used = 0;
    let mut end = step_end(&bytes[..0]);
    while used < end {
        used += read_next(reader, &mut bytes[used..end]);
        if used < end {
            return used;
        }
        end = step_end(&bytes[..used]);
    }
    used
}

// After the last step: looks whether there are more bytes. 02: "seven lines after an unrefused run".
fn finish<R: Read, W: Write>(
    reader: &mut R,
    writer: &mut W,
    figures: [usize; 7],
    text: &mut [u8],
) -> u8
    requires { 168 ≤ length text.old }
    ensures { Ended figures text.old text.new result }
{
    let mut more = [0u8; 1];
    let overlong = end_number(read_next(reader, &mut more));
    if overlong != 0 {
        return overlong;
    }
    let size = put_figures(text, figures);
    // written or not, nothing follows
    let _ = writer.write_all(&text[..size]);
    0
}

// The steps of a trace so far: 0, or the number of the refusal at which they stopped, the group after
// them, and the figures of their verdicts.
#[derive(Drop)]
struct Progress {
    pub number: u8,
    pub group: Rehearsal,
    pub figures: [usize; 7],
}

// Rehearses `steps` steps as they come, and then looks whether there are more bytes. It stops at a
// step that is refused. Lines that cannot be written stop it too, with 0: nothing more is read or
// called. Of `bytes` a step's length is for what comes; the rest stays.
fn rehearse_steps<R: Read, W: Write>(
    reader: &mut R,
    writer: &mut W,
    setup: Setup,
    steps: usize,
    holdbacks: &mut [u8],
    slots: &mut [u8],
    bytes: &mut [u8],
    text: &mut [u8],
) -> Progress
    requires { Begun (setup_of setup) steps holdbacks.old slots.old bytes.old text.old }
    ensures ran { Ran (setup_of setup) steps result holdbacks.old slots.old text.old holdbacks.new slots.new text.new }
    ensures bytes_unchanged { drop longest_step bytes.new ≡ drop longest_step bytes.old }
    ensures number_value { among run_numbers result.number ≡ true }
{
    let mut group = new_group();
    let mut figures = [0usize; 7];
    while group.steps < steps {
        let used = read_step(reader, bytes);
        let one = rehearse_step(setup, group, holdbacks, slots, &bytes[..used], text);
        let verdicts = one.verdicts;
        let noted = note_verdicts(figures, &verdicts[..one.heard], group.steps + 1);
        figures = noted;
        group = one.group;
        if one.number != 0 {
            return Progress {
                number: one.number,
                group,
                figures,
            };
        }
        if writer.write_all(&text[..one.size]).is_err() {
            return Progress {
                number: 0,
                group,
                figures,
            };
        }
    }
    Progress {
        number: finish(reader, writer, figures, text),
        group,
        figures,
    }
}

// All that follows the setup. Answers 0, or the number of the refusal at which it stopped.
fn run<R: Read, W: Write>(reader: &mut R, writer: &mut W, setup: Setup) -> u8
    requires { Usable (setup_of setup) }
    ensures { among run_numbers result ≡ true }
{
    let mut head = [0u8; COUNT_LENGTH];
    let got = read_next(reader, &mut head);
    let refused = steps_number(&head[..got]);
    if refused != 0 {
        return refused;
    }
    let steps = tick_count(&head[..got]);
    // 01: "n 1..16", and a shelf of at most 65,536 bytes for each
    let mut held = [0u8; 1048576];
    // a slot for each of at most 1,000 steps
    let mut kept = [0u8; 72000];
    let mut read = [0u8; 771];
    let mut lines = [0u8; 524288];
    let end = rehearse_steps(
        reader, writer, setup, steps, &mut held, &mut kept, &mut read, &mut lines,
    );
    end.number
}

// The whole trace, but for the line of a refusal.
fn rehearse<R: Read, W: Write>(reader: &mut R, writer: &mut W) -> u8
    ensures { among replay_numbers result ≡ true }
{
    let mut head = [0u8; GROUP_SETUP_LENGTH];
    let got = read_next(reader, &mut head);
    let number = setup_number(&head[..got], GROUP_SETUP_LENGTH);
    if number != 0 {
        return number;
    }
    let node = read_setup(&head[..got]);
    run(reader, writer, node.setup)
}

fn main(rt: HostRuntime) {
    let mut reader = rt.stdin();
    let mut writer = rt.stdout();
    let mut line = [0u8; 16];
    let size = put_stopped(&mut line, rehearse(&mut reader, &mut writer));
    // written or not, nothing follows
    let _ = writer.write_all(&line[..size]);
}
