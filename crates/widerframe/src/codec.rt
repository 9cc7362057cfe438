// Reader and writer alone, with both pairs: any setup, numbers and bytes get an answer. They have no clock; 02: they "judge 12 by the frame's width":
// behind 1 and 19 they are the plain ones of the pair that has this width.
ghost use Rattle.std.specs.Prelude.{◌≡◌, cond};
ghost use Rattle.model.specs.Schedule.{wider_setup};
ghost use Rattle.model.specs.WiderCalls.{read_in, write_in};
ghost use Rattle.setup.specs.Views.{setup_of};
ghost use Rattle.timestamp.specs.Views.{stamp_of};
ghost use Rattle.pairs.specs.Views.{wider_of};
ghost use Rattle.frame.specs.Answers.{write_answer};
ghost use Rattle.widerframe.specs.Answers.{read_in_answer};

use crate::form::side_in;
use frame::{ReadFrame, Written, payload_of, read, refused, write};
use pairs::{Wider, check_both, pairs_of, wider_setup};
use setup::Setup;
use timestamp::Timestamp;

// What the reader answers, by value; the payload is the answer of `payload_in`.
#[derive(Drop)]
pub struct ReadIn {
    // the frame has more than 2ε counts
    pub wide: bool,
    pub frame: ReadFrame,
}

// The reader; 02: "the width is part of a frame's contents".
pub fn read_in(setup: Setup, wider: Wider, own: u32, frame: &[u8]) -> ReadIn
    ensures { read_in_answer result (read_in (setup_of setup) (wider_of wider) own frame.now).payload
        ≡ read_in (setup_of setup) (wider_of wider) own frame.now }
{
    let number = check_both(setup, wider, own);
    if number != 0 {
        let none = refused(number);
        return ReadIn {
            wide: false,
            frame: none,
        };
    }
    let side = side_in(pairs_of(setup, wider), frame);
    let contents = read(side, own, frame);
    if contents.number != 0 {
        return ReadIn {
            wide: false,
            frame: contents,
        };
    }
    ReadIn {
        wide: setup.epsilon < side.epsilon,
        frame: contents,
    }
}

// The payload: the very bytes of the frame. Of a refused frame an empty part.
pub fn payload_in(setup: Setup, wider: Wider, own: u32, frame: &[u8]) -> &[u8]
    ensures { result.now ≡ (read_in (setup_of setup) (wider_of wider) own frame.now).payload }
{
    if check_both(setup, wider, own) != 0 {
        return &frame[..0];
    }
    payload_of(side_in(pairs_of(setup, wider), frame), own, frame)
}

// The pair whose width the writer is told.
fn written_side(setup: Setup, wider: Wider, wide: bool) -> Setup
    ensures { setup_of result ≡ cond wide (wider_setup (setup_of setup) (wider_of wider)) (setup_of setup) }
{
    if wide {
        return wider_setup(setup, wider);
    }
    setup
}

// The writer.
pub fn write_in(
    setup: Setup,
    wider: Wider,
    own: u32,
    station: usize,
    wide: bool,
    stamp: Timestamp,
    payload: &[u8],
    out: &mut [u8],
) -> Written
    ensures { write_answer result out.new
        ≡ write_in (setup_of setup) (wider_of wider) own station wide (stamp_of stamp) payload.now out.old }
{
    let number = check_both(setup, wider, own);
    if number != 0 {
        return Written { number, size: 0 };
    }
    let side = written_side(setup, wider, wide);
    write(side, own, station, stamp, payload, out)
}
