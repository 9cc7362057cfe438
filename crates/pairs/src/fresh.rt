// The side of the mark, and fresh tables with both pairs.
ghost use Rattle.std.specs.Prelude.{◌≡◌};
ghost use Rattle.model.specs.Question.{first_no};
ghost use Rattle.model.specs.Timestamp.{widened};
ghost use Rattle.model.specs.Schedule.{side_of};
ghost use Rattle.model.specs.WiderCalls.{fresh_in_questions, fresh_in};
ghost use Rattle.setup.specs.Views.{setup_of};
ghost use Rattle.timestamp.specs.Views.{stamp_of};
ghost use Rattle.pairs.specs.Views.{wider_of};
ghost use Rattle.lemmas.proofs.WiderCall.{BothPairs};

use crate::both::{Wider, check_both, wider_setup};
use setup::{BAD_CLOCK, Setup};
use timestamp::Timestamp;

// 02: "a mark set once the clock is at or past V": the limits of a clock by the mark alone.
pub fn marked_side(setup: Setup, wider: Wider) -> Setup
    ensures { setup_of result ≡ side_of (setup_of setup) (wider_of wider) }
{
    if wider.marked == 1 {
        return wider_setup(setup, wider);
    }
    setup
}

// 1, 19 and 2: the number of the first no, or 0.
pub fn check_fresh(setup: Setup, wider: Wider, own: u32, clock: usize) -> u8
    ensures { result ≡ first_no (fresh_in_questions (setup_of setup) (wider_of wider) own clock) }
{
    let number = check_both(setup, wider, own);
    if number != 0 {
        return number;
    }
    if setup.modulus as usize <= clock {
        return BAD_CLOCK;
    }
    0
}

// 01: "Fresh tables at a clock", of the width of that clock.
pub fn fresh_tables(setup: Setup, wider: Wider, clock: usize) -> Timestamp
    requires { BothPairs (setup_of setup) (wider_of wider) }
    ensures { stamp_of result ≡ widened (fresh_in (setup_of setup) (wider_of wider) clock) }
{
    let side = marked_side(setup, wider);
    Timestamp::fresh(side.epsilon as usize, clock)
}
