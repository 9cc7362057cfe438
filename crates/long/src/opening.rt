// 01, tick 1 and 2, of an engine's tables (02, 2.9): clocks are plain numbers.
ghost use Rattle.std.specs.Prelude.{◌≡◌};
ghost use Rattle.model.specs.Long.{long_clock_sound};
ghost use Rattle.setup.specs.Views.{setup_of};
ghost use Rattle.timestamp.specs.Views.{stamp_of};
ghost use Rattle.long.specs.States.{Timed, StampOpened};

use longframe::BOUND;
use node::Opening;
use setup::Setup;
use timestamp::Timestamp;

// 02, 2.2: "A step of 1 to ε", from the r of the tables, which is below 2^63.
fn clock_sound(epsilon: usize, clock: usize, r: usize) -> bool
    ensures { result ≡ long_clock_sound epsilon clock r }
{
    if BOUND <= r {
        return false;
    }
    if clock <= r {
        return false;
    }
    clock - r <= epsilon
}

// Sound tables take a step; "Unsound tables are replaced by c 0 and no counts at all (mend 1)". 02, 2.2: each frame of the queue is to be
// due after the r of sound tables; where they are not, "no due clock before v is accepted".
pub fn open_stamp(setup: Setup, clock: usize, tables: Timestamp) -> Opening
    requires { Timed (setup_of setup) clock }
    ensures { StampOpened (setup_of setup) clock (stamp_of tables) (stamp_of result.stamp) result.least result.repair }
{
    let epsilon = setup.epsilon as usize;
    let timely = clock_sound(epsilon, clock, tables.r);
    if !tables.sound_beside(setup.n as usize, epsilon, timely) {
        let stamp = Timestamp::replaced(clock);
        return Opening {
            stamp,
            least: clock,
            repair: 1,
        };
    }
    let k = clock - tables.r;
    let stamp = tables.step(epsilon, k, clock);
    Opening {
        stamp,
        least: clock + 1 - k,
        repair: 0,
    }
}
