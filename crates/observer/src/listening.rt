// One call of an observer.
ghost use Rattle.std.specs.Prelude.{◌≡◌};
ghost use Rattle.model.specs.Question.{first_no};
ghost use Rattle.model.specs.Observer as model;
ghost use Rattle.observer.specs.Views.{listen_input};
ghost use Rattle.observer.specs.Answers.{listen_output};

use crate::call::check_listen;
use node::{attend, open_clock};
use setup::Setup;
use timestamp::{Timestamp, clock_sound};

// What a call answers beside the buffers.
#[derive(Drop)]
pub struct Listened {
    // 0, or the number of the first no
    pub number: u8,
    // 01: mend
    pub repair: u8,
    pub taken: usize,
    pub delivered: usize,
    // 02: "its last clock"
    pub last: usize,
}

// An accepted call. "Its last clock" is "judged and mended like the r of tables"; it keeps "no counts", so its stamp is one with none, and
// no frame is absorbed.
fn heed(
    setup: Setup,
    clock: usize,
    last: usize,
    holdback: &mut [u8],
    batch: &[u8],
    verdicts: &mut [u8],
    delivery: &mut [u8],
) -> Listened
    requires { first_no (model.listen_questions (listen_input setup clock last holdback.old batch.now verdicts.old delivery.old)) ≡ 0 }
    ensures { listen_output result holdback.new verdicts.new delivery.new
        ≡ model.listen (listen_input setup clock last holdback.old batch.now verdicts.old delivery.old) }
{
    let epsilon = setup.epsilon as usize;
    let modulus = setup.modulus as usize;
    let sound = clock_sound(epsilon, modulus, clock, last);
    let opened = open_clock(setup, clock, sound, last);
    let stamp = Timestamp::replaced(clock);
    let attended = attend(
        setup,
        clock,
        true,
        opened.least,
        stamp,
        batch,
        holdback,
        verdicts,
        delivery,
    );
    Listened {
        number: 0,
        repair: opened.repair + attended.repair,
        taken: attended.taken,
        delivered: attended.delivered,
        last: clock,
    }
}

// Any arguments get an answer; a refused call keeps its last clock and all buffers.
pub fn listen(
    setup: Setup,
    clock: usize,
    last: usize,
    holdback: &mut [u8],
    batch: &[u8],
    verdicts: &mut [u8],
    delivery: &mut [u8],
) -> Listened
    ensures { listen_output result holdback.new verdicts.new delivery.new
        ≡ model.listen (listen_input setup clock last holdback.old batch.now verdicts.old delivery.old) }
{
    let number = check_listen(setup, clock, holdback, batch, verdicts, delivery);
    if number != 0 {
        return Listened {
            number,
            repair: 0,
            taken: 0,
            delivered: 0,
            last,
        };
    }
    heed(setup, clock, last, holdback, batch, verdicts, delivery)
}
