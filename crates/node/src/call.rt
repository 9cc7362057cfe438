// 01, "Of the call, in order": questions 1 to 6.
ghost use Rattle.std.specs.Prelude.{◌≡◌, Bool, true, ℕ, length};
ghost use Rattle.model.specs.Setup.{in_limits};
ghost use Rattle.model.specs.Question.{first_no};
ghost use Rattle.model.specs.Tick.{call_questions};
ghost use Rattle.model.specs.Wider.{sized_questions};
ghost use Rattle.setup.specs.Views.{setup_of};
ghost use Rattle.setup.specs.declared.limits.Setup as setups;
ghost use Rattle.timestamp.specs.declared.stamp.Timestamp as stamps;
ghost use Rattle.node.specs.Views.{call_input, buffer_questions};

use setup::{
    BAD_BATCH, BAD_BUFFERS, BAD_PAYLOAD, BAD_SETUP, LONGEST_PAYLOAD, Setup, check_holdback,
    delivery_roomy, longest_frame, valid_for,
};

// 4 to 6, of a shelf that has its length: the number of the first no, or 0. A station and an engine with long clocks (02, 2.9) differ in
// how long the longest frame is.
pub fn check_buffers(
    longest: usize,
    holdback: &[u8],
    batch: &[u8],
    payload: &[u8],
    outgoing: &[u8],
    verdicts: &[u8],
    delivery: &[u8],
) -> u8
    ensures { result ≡ first_no (buffer_questions longest (length holdback.now) batch.now payload.now
        outgoing.now verdicts.now delivery.now) }
{
    if LONGEST_PAYLOAD < payload.len() {
        return BAD_PAYLOAD;
    }
    if !batch::exact(batch) {
        return BAD_BATCH;
    }
    if outgoing.len() < longest {
        return BAD_BUFFERS;
    }
    if !delivery_roomy(holdback, verdicts, delivery) {
        return BAD_BUFFERS;
    }
    0
}

// 2 to 6, with the sizes by that setup: the number of the first no, or 0. Nothing else of the call is asked about.
pub fn check_sized(
    setup: Setup,
    clock: usize,
    holdback: &[u8],
    batch: &[u8],
    payload: &[u8],
    outgoing: &[u8],
    verdicts: &[u8],
    delivery: &[u8],
) -> u8
    requires { in_limits (setup_of setup) ≡ true }
    ensures { (given : setups.Setup) (own : ℕ) (tables : stamps.Timestamp) (send : Bool) → result ≡ first_no (sized_questions (setup_of setup)
        (call_input given own clock tables holdback.now batch.now send payload.now outgoing.now
        verdicts.now delivery.now)) }
{
    let number = check_holdback(setup, clock, holdback);
    if number != 0 {
        return number;
    }
    let longest = longest_frame(setup.epsilon as usize);
    check_buffers(
        longest, holdback, batch, payload, outgoing, verdicts, delivery,
    )
}

// The number of the first no, or 0. Neither the tables nor whether to send is asked about.
pub fn check_call(
    setup: Setup,
    own: u32,
    clock: usize,
    holdback: &[u8],
    batch: &[u8],
    payload: &[u8],
    outgoing: &[u8],
    verdicts: &[u8],
    delivery: &[u8],
) -> u8
    ensures { (tables : stamps.Timestamp) (send : Bool) → result ≡ first_no (call_questions (call_input setup own clock tables
        holdback.now batch.now send payload.now outgoing.now
        verdicts.now delivery.now)) }
{
    if !valid_for(setup, own) {
        return BAD_SETUP;
    }
    check_sized(
        setup, clock, holdback, batch, payload, outgoing, verdicts, delivery,
    )
}
