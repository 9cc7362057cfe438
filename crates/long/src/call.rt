// 02, 2.9: questions 1 to 6 of an engine's call.
ghost use Rattle.std.specs.Prelude.{◌≡◌, Bool};
ghost use Rattle.model.specs.Question.{first_no};
ghost use Rattle.model.specs.Long.{long_call_questions};
ghost use Rattle.timestamp.specs.declared.stamp.Timestamp as stamps;
ghost use Rattle.node.specs.Views.{call_input};

use longframe::{BOUND, holdback_length, longest_frame, valid_for};
use node::check_buffers;
use setup::{BAD_CLOCK, BAD_HOLDBACK, BAD_SETUP, Setup};

// The number of the first no, or 0. Neither the tables nor whether to send is asked about.
pub fn check_call(
    setup: Setup,
    own: u32,
    clock: usize,
    holdback: &[u8],
    batch: &[u8],
    payload: &[u8],
    outgoing: &[u8],
    verdicts: &[u8],
    delivery: &[u8],
) -> u8
    ensures { (tables : stamps.Timestamp) (send : Bool) → result ≡ first_no (long_call_questions (call_input setup own clock tables
        holdback.now batch.now send payload.now outgoing.now
        verdicts.now delivery.now)) }
{
    if !valid_for(setup, own) {
        return BAD_SETUP;
    }
    if BOUND <= clock {
        return BAD_CLOCK;
    }
    let epsilon = setup.epsilon as usize;
    if holdback.len() != holdback_length(epsilon) {
        return BAD_HOLDBACK;
    }
    let longest = longest_frame(epsilon);
    check_buffers(
        longest, holdback, batch, payload, outgoing, verdicts, delivery,
    )
}
