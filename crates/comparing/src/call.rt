// The comparison alone, as a call: any setup, numbers and bytes get an answer.
ghost use Rattle.std.specs.Prelude.{◌≡◌};
ghost use Rattle.model.specs.Question.{first_no};
ghost use Rattle.model.specs.Comparison.{reason_number, reason_clock, compare_questions, compare_by, compare_call};
ghost use Rattle.setup.specs.Views.{setup_of};
ghost use Rattle.timestamp.specs.Ranks.{reason_of, comparison_of};
ghost use Rattle.comparing.specs.Answers.{compare_answer, refused_compare};

use crate::frames::compare_frames;
use frame::check;
use setup::{BAD_CLOCK, BAD_SETUP, Setup, valid_for};
use timestamp::{Comparison, Reason};

// What the call answers.
#[derive(Drop)]
pub struct Compared {
    // 0, or the number of the first no
    pub number: u8,
    // 0 the first is first, 1 the second, 2 they are alike
    pub order: u8,
    // 0 nothing, 1 sum, 2 count, 3 station, 4 r
    pub reason: u8,
    // the count's clock; 0 where no count decided
    pub clock: usize,
}

// It asks 1, 2, then 10 to 12 of the first frame and of the second: the number of the first no, or 0.
fn check_compare(setup: Setup, own: u32, clock: usize, first: &[u8], second: &[u8]) -> u8
    ensures { result ≡ first_no (compare_questions (setup_of setup) own clock first.now second.now) }
{
    if !valid_for(setup, own) {
        return BAD_SETUP;
    }
    if setup.modulus as usize <= clock {
        return BAD_CLOCK;
    }
    let number = check(setup, first);
    if number != 0 {
        return number;
    }
    check(setup, second)
}

// What decided, as a number.
fn reason_number(reason: Reason) -> u8
    ensures { result ≡ reason_number (reason_of reason) }
{
    match reason {
        Reason::Sum => 1,
        Reason::Count(_) => 2,
        Reason::Station => 3,
        Reason::R => 4,
    }
}

// The count's clock; 0 where no count decided.
fn reason_clock(reason: Reason) -> usize
    ensures { result ≡ reason_clock (reason_of reason) }
{
    match reason {
        Reason::Sum => 0,
        Reason::Count(clock) => clock,
        Reason::Station => 0,
        Reason::R => 0,
    }
}

// A comparison in numbers.
pub fn numbers_of(comparison: Comparison) -> Compared
    ensures { compare_answer result ≡ compare_by 0 (comparison_of comparison) }
{
    match comparison {
        Comparison::First(reason) => Compared {
            number: 0,
            order: 0,
            reason: reason_number(reason),
            clock: reason_clock(reason),
        },
        Comparison::Second(reason) => Compared {
            number: 0,
            order: 1,
            reason: reason_number(reason),
            clock: reason_clock(reason),
        },
        Comparison::Alike => Compared {
            number: 0,
            order: 2,
            reason: 0,
            clock: 0,
        },
    }
}

// 01: a refused one "answers the number alone".
pub fn refused(number: u8) -> Compared
    ensures { compare_answer result ≡ refused_compare number }
{
    Compared {
        number,
        order: 0,
        reason: 0,
        clock: 0,
    }
}

// The comparison of two frames by their bytes.
pub fn compare_call(setup: Setup, own: u32, clock: usize, first: &[u8], second: &[u8]) -> Compared
    ensures { compare_answer result ≡ compare_call (setup_of setup) own clock first.now second.now }
{
    let number = check_compare(setup, own, clock, first, second);
    if number != 0 {
        return refused(number);
    }
    numbers_of(compare_frames(setup, clock, first, second))
}
