// The reader alone: any setup and any bytes get an answer.
ghost use Rattle.std.specs.Prelude.{◌≡◌, []};
ghost use Rattle.model.specs.Question.{first_no};
ghost use Rattle.model.specs.Codec as codec;
ghost use Rattle.setup.specs.Views.{setup_of};
ghost use Rattle.frame.specs.Answers.{read_answer, refused_read};

use crate::form::{OVERHEAD, check, stamp_of, station_of};
use setup::{BAD_SETUP, Setup, valid_for};
use timestamp::Timestamp;

// What the reader answers, by value; the payload (01: the ticket) is the answer of `payload_of`.
#[derive(Drop)]
pub struct ReadFrame {
    // 0, or the number of the first no
    pub number: u8,
    pub station: usize,
    pub stamp: Timestamp,
}

// 01: "the reader asks 1, 10, 11, 12": the number of the first no, or 0.
fn check_read(setup: Setup, own: u32, frame: &[u8]) -> u8
    ensures { result ≡ first_no (codec.read_questions (setup_of setup) own frame.now) }
{
    if !valid_for(setup, own) {
        return BAD_SETUP;
    }
    check(setup, frame)
}

// 01: a refused reader "answers the number alone".
pub fn refused(number: u8) -> ReadFrame
    ensures { read_answer result [] ≡ refused_read number }
{
    let kn = [0u8; Timestamp::WIDTH];
    let stamp = Timestamp { r: 0, c: 0, kn };
    ReadFrame {
        number,
        station: 0,
        stamp,
    }
}

// The answer of the reader.
pub fn read(setup: Setup, own: u32, frame: &[u8]) -> ReadFrame
    ensures { read_answer result (codec.read (setup_of setup) own frame.now).payload
        ≡ codec.read (setup_of setup) own frame.now }
{
    let number = check_read(setup, own, frame);
    if number != 0 {
        return refused(number);
    }
    let stamp = stamp_of(setup.epsilon as usize, frame);
    ReadFrame {
        number: 0,
        station: station_of(frame),
        stamp,
    }
}

// The payload: the very bytes of the frame. Of a refused frame an empty part.
pub fn payload_of(setup: Setup, own: u32, frame: &[u8]) -> &[u8]
    ensures { result.now ≡ (codec.read (setup_of setup) own frame.now).payload }
{
    if check_read(setup, own, frame) != 0 {
        return &frame[..0];
    }
    let at = OVERHEAD + 2 * setup.epsilon as usize;
    &frame[at..]
}
