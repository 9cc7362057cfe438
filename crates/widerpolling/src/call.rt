// The poll with both pairs of limits as a call: any setup, numbers and bytes get an answer, and the shelf is only read.
ghost use Rattle.std.specs.Prelude.{◌≡◌, false, ◌<◌, length};
ghost use Rattle.model.specs.Question.{first_no};
ghost use Rattle.model.specs.Schedule.{widest_of, same_pairs, along};
ghost use Rattle.model.specs.Tick.{holdback_size, holdback_questions};
ghost use Rattle.model.specs.WiderCalls.{wider_polled_queue, wider_poll_by, poll_in};
ghost use Rattle.lemmas.proofs.WiderCall.{BothPairs};
ghost use Rattle.setup.specs.Views.{setup_of};
ghost use Rattle.pairs.specs.Views.{wider_of, schedule_of, Paired};
ghost use Rattle.polling.specs.Answers.{poll_answer};

use crate::front::next_due;
use holdback::TABLE_LENGTH;
use pairs::{Pairs, Wider, check_both, pairs_near, same_pairs, wider_setup};
use polling::{Polled, nothing, poll};
use setup::{Setup, check_holdback};
use widerqueue::{front_before, sound};

// The shelf judged "for the last tick's clock v, every due clock past v", and what it tells; `d` is 02's d. The walk is
// the tick's and fills the table of origins, which is not used.
fn ask_queue(p: Pairs, clock: usize, d: usize, holdback: &[u8]) -> Polled
    requires paired { Paired p × ((clock < p.before.modulus) × (d < 65536)) }
    requires holdback_len { length holdback.now ≡ holdback_size (widest_of (schedule_of p)) }
    ensures { poll_answer result ≡ wider_poll_by 0 (schedule_of p) clock d (wider_polled_queue (schedule_of p) clock holdback.now) }
{
    let mut seen = [0u64; TABLE_LENGTH];
    let least = p.before.modulus as usize + 1;
    let walk = sound(p, clock, least, holdback, &mut seen);
    if !walk.sound {
        return nothing(0);
    }
    let next = next_due(p, clock, holdback, walk.count);
    let within = front_before(p, clock, least + d, holdback, walk.count);
    Polled {
        number: 0,
        next,
        within: within.index,
    }
}

// Checks 2 and 3 by the wider sizes, and then the shelf, where the pairs differ.
fn poll_both(setup: Setup, wider: Wider, clock: usize, d: usize, holdback: &[u8]) -> Polled
    requires { BothPairs (setup_of setup) (wider_of wider) × ((same_pairs (setup_of setup) (wider_of wider) ≡ false) × (d < 65536)) }
    ensures { poll_answer result
        ≡ wider_poll_by (first_no (holdback_questions (widest_of (along (setup_of setup) (wider_of wider) clock)) clock holdback.now)) (along (setup_of setup) (wider_of wider) clock) clock d
        (wider_polled_queue (along (setup_of setup) (wider_of wider) clock) clock holdback.now) }
{
    let after = wider_setup(setup, wider);
    let number = check_holdback(after, clock, holdback);
    if number != 0 {
        return nothing(number);
    }
    let p = pairs_near(setup, wider, clock);
    ask_queue(p, clock, d, holdback)
}

// The poll with both pairs, at most `d` ticks after the clock. Equal pairs are one, and go the plain way.
pub fn poll_in(
    setup: Setup,
    wider: Wider,
    own: u32,
    clock: usize,
    d: u16,
    holdback: &[u8],
) -> Polled
    ensures { poll_answer result ≡ poll_in (setup_of setup) (wider_of wider) own clock d holdback.now }
{
    let number = check_both(setup, wider, own);
    if number != 0 {
        return nothing(number);
    }
    if same_pairs(setup, wider) {
        return poll(setup, own, clock, d, holdback);
    }
    poll_both(setup, wider, clock, d as usize, holdback)
}
