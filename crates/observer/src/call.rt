// The questions of an observer's call.
ghost use Rattle.std.specs.Prelude.{◌≡◌, true, ℕ};
ghost use Rattle.model.specs.Setup.{in_limits};
ghost use Rattle.model.specs.Question.{first_no};
ghost use Rattle.model.specs.Observer.{listen_questions};
ghost use Rattle.setup.specs.Views.{setup_of};
ghost use Rattle.setup.specs.declared.limits.Setup as setups;
ghost use Rattle.observer.specs.Views.{listen_input, sized_listening};

use setup::{BAD_BATCH, BAD_BUFFERS, BAD_SETUP, Setup, check_holdback, delivery_roomy, in_limits};

// 2, 3, 5, and 6 without the outgoing buffer, with the sizes by that setup: the number of the first no, or 0. Nothing else of the call is
// asked about.
pub fn check_sized(
    setup: Setup,
    clock: usize,
    holdback: &[u8],
    batch: &[u8],
    verdicts: &[u8],
    delivery: &[u8],
) -> u8
    requires { in_limits (setup_of setup) ≡ true }
    ensures { (given : setups.Setup) (last : ℕ) → result ≡ first_no (sized_listening (setup_of setup) (listen_input given clock last
        holdback.now batch.now verdicts.now delivery.now)) }
{
    let number = check_holdback(setup, clock, holdback);
    if number != 0 {
        return number;
    }
    if !batch::exact(batch) {
        return BAD_BATCH;
    }
    if !delivery_roomy(holdback, verdicts, delivery) {
        return BAD_BUFFERS;
    }
    0
}

// 02: "It asks 1 without the own number, 2, 3, 5, and 6 without the outgoing buffer". The number of the first no, or 0. The last clock is
// not asked about.
pub fn check_listen(
    setup: Setup,
    clock: usize,
    holdback: &[u8],
    batch: &[u8],
    verdicts: &[u8],
    delivery: &[u8],
) -> u8
    ensures { (last : ℕ) → result ≡ first_no (listen_questions (listen_input setup clock last holdback.now batch.now
        verdicts.now delivery.now)) }
{
    if !in_limits(setup) {
        return BAD_SETUP;
    }
    check_sized(setup, clock, holdback, batch, verdicts, delivery)
}
