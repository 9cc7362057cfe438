// One call of an observer with both pairs of limits.
ghost use Rattle.std.specs.Prelude.{◌≡◌};
ghost use Rattle.model.specs.WiderCalls.{wider_listened, listen_in};
ghost use Rattle.setup.specs.declared.limits.Setup as setups;
ghost use Rattle.observer.specs.Views.{listen_input};
ghost use Rattle.observer.specs.Answers.{listen_output};
ghost use Rattle.pairs.specs.Views.{wider_of, schedule_of};
ghost use Rattle.widerobserver.specs.States.{Heeded};

use crate::call::check_listen;
use node::open_clock;
use observer::{Listened, listen};
use pairs::{Pairs, Wider, own_limits, pairs_near, same_pairs};
use setup::Setup;
use timestamp::{Timestamp, clock_sound};
use widernode::attend;

// An accepted call. "Its last clock" is "judged and mended like the r of tables", by the limits of v; it keeps "no counts", so its stamp is one with
// none, and no frame is absorbed. The setup that was asked about makes no difference any more.
fn heed(
    p: Pairs,
    clock: usize,
    last: usize,
    holdback: &mut [u8],
    batch: &[u8],
    verdicts: &mut [u8],
    delivery: &mut [u8],
) -> Listened
    requires { Heeded (schedule_of p) clock holdback.old batch.now verdicts.old delivery.old }
    ensures { (given : setups.Setup) → listen_output result holdback.new verdicts.new delivery.new
        ≡ wider_listened (schedule_of p) (listen_input given clock last holdback.old batch.now verdicts.old delivery.old) }
{
    let own = own_limits(p);
    let sound = clock_sound(own.epsilon as usize, own.modulus as usize, clock, last);
    let opened = open_clock(own, clock, sound, last);
    let stamp = Timestamp::replaced(clock);
    let attended = attend(
        p,
        clock,
        true,
        opened.least,
        stamp,
        batch,
        holdback,
        verdicts,
        delivery,
    );
    Listened {
        number: 0,
        repair: opened.repair + attended.repair,
        taken: attended.taken,
        delivered: attended.delivered,
        last: clock,
    }
}

// Any arguments get an answer; a refused call keeps its last clock and all buffers. With equal pairs it is the plain call.
pub fn listen_in(
    setup: Setup,
    wider: Wider,
    clock: usize,
    last: usize,
    holdback: &mut [u8],
    batch: &[u8],
    verdicts: &mut [u8],
    delivery: &mut [u8],
) -> Listened
    ensures { listen_output result holdback.new verdicts.new delivery.new
        ≡ listen_in (wider_of wider) (listen_input setup clock last holdback.old batch.now verdicts.old delivery.old) }
{
    let number = check_listen(setup, wider, clock, holdback, batch, verdicts, delivery);
    if number != 0 {
        return Listened {
            number,
            repair: 0,
            taken: 0,
            delivered: 0,
            last,
        };
    }
    if same_pairs(setup, wider) {
        return listen(setup, clock, last, holdback, batch, verdicts, delivery);
    }
    let p = pairs_near(setup, wider, clock);
    heed(p, clock, last, holdback, batch, verdicts, delivery)
}
