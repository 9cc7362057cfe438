// The questions of an observer's call with both pairs of limits: 1 without the own number, 19, 2, 3, 5, and 6 without the outgoing buffer.
ghost use Rattle.std.specs.Prelude.{◌≡◌, ℕ};
ghost use Rattle.model.specs.Question.{first_no};
ghost use Rattle.model.specs.WiderCalls.{listen_in_questions};
ghost use Rattle.observer.specs.Views.{listen_input};
ghost use Rattle.pairs.specs.Views.{wider_of};

use observer::check_sized;
use pairs::{Wider, check_pairs, wider_setup};
use setup::Setup;

// The number of the first no, or 0. 02: "shelves and buffers have the new sizes". The last clock is not asked about.
pub fn check_listen(
    setup: Setup,
    wider: Wider,
    clock: usize,
    holdback: &[u8],
    batch: &[u8],
    verdicts: &[u8],
    delivery: &[u8],
) -> u8
    ensures { (last : ℕ) → result ≡ first_no (listen_in_questions (wider_of wider) (listen_input setup clock last holdback.now batch.now
        verdicts.now delivery.now)) }
{
    let number = check_pairs(setup, wider);
    if number != 0 {
        return number;
    }
    let widest = wider_setup(setup, wider);
    check_sized(widest, clock, holdback, batch, verdicts, delivery)
}
