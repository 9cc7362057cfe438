// The reader alone: any setup and any bytes get an answer, in the form of the station's reader.
ghost use Rattle.std.specs.Prelude.{◌≡◌, ◌∷◌};
ghost use Rattle.model.specs.Question.{first_no};
ghost use Rattle.model.specs.Long.{ask_long_setup, long_frame_questions, long_read};
ghost use Rattle.setup.specs.Views.{setup_of};
ghost use Rattle.frame.specs.Answers.{read_answer};

use crate::form::{check, six_on, stamp_of, station_of};
use crate::limits::valid_for;
use frame::{ReadFrame, payload_part, refused};
use setup::{BAD_SETUP, Setup};

// 01: "the reader asks 1, 10, 11, 12": the number of the first no, or 0.
fn check_read(setup: Setup, own: u32, frame: &[u8]) -> u8
    ensures { result ≡ first_no (ask_long_setup (setup_of setup) own ∷ long_frame_questions (setup_of setup) frame.now) }
{
    if !valid_for(setup, own) {
        return BAD_SETUP;
    }
    check(setup, frame)
}

// The answer of the reader.
pub fn read(setup: Setup, own: u32, frame: &[u8]) -> ReadFrame
    ensures { read_answer result (long_read (setup_of setup) own frame.now).payload
        ≡ long_read (setup_of setup) own frame.now }
{
    let number = check_read(setup, own, frame);
    if number != 0 {
        return refused(number);
    }
    let stamp = stamp_of(setup.epsilon as usize, frame);
    ReadFrame {
        number: 0,
        station: station_of(frame),
        stamp,
    }
}

// The payload: the very bytes of the frame. Of a refused frame an empty part.
pub fn payload_of(setup: Setup, own: u32, frame: &[u8]) -> &[u8]
    ensures { result.now ≡ (long_read (setup_of setup) own frame.now).payload }
{
    if check_read(setup, own, frame) != 0 {
        return &frame[..0];
    }
    payload_part(setup.epsilon as usize, six_on(frame))
}
