// The questions on a clock and a shelf, which every call with a shelf asks, and on the buffers of one that hands out.
ghost use Rattle.std.specs.Prelude.{◌≡◌, true, ◌&&◌, leb, length};
ghost use Rattle.model.specs.Setup.{in_limits, verdict_length};
ghost use Rattle.model.specs.Question.{first_no};
ghost use Rattle.model.specs.Tick.{holdback_questions};
ghost use Rattle.setup.specs.Views.{setup_of};

use crate::limits::{Setup, VERDICT_LENGTH, holdback_length};
use crate::numbers::{BAD_CLOCK, BAD_HOLDBACK};

// 01, checks 2 and 3: "Is the clock below B?", "Has the shelf its exact length?" The number of the first no, or 0.
pub fn check_holdback(setup: Setup, clock: usize, holdback: &[u8]) -> u8
    requires { in_limits (setup_of setup) ≡ true }
    ensures { result ≡ first_no (holdback_questions (setup_of setup) clock holdback.now) }
{
    if setup.modulus as usize <= clock {
        return BAD_CLOCK;
    }
    if holdback.len()
        != holdback_length(
            setup.n as usize,
            setup.epsilon as usize,
            setup.delta as usize,
        )
    {
        return BAD_HOLDBACK;
    }
    0
}

// 01, check 6: "Has … the verdict buffer 255, the hand-out buffer a shelf's length?" The shelf has that length.
pub fn delivery_roomy(holdback: &[u8], verdicts: &[u8], delivery: &[u8]) -> bool
    ensures { result ≡ (leb verdict_length (length verdicts.now) && leb (length holdback.now) (length delivery.now)) }
{
    if verdicts.len() < VERDICT_LENGTH {
        return false;
    }
    holdback.len() <= delivery.len()
}
