// The last clock before a call: r of a node's tables, or the one that an observer keeps.
ghost use Rattle.setup.specs.Views.{setup_of};
ghost use Rattle.node.specs.States.{Timed, LastClock, ClockOpened};

use setup::Setup;
use timestamp::clock_step;

// What the last clock gives.
#[derive(Drop)]
pub struct OpenedClock {
    // the least due clock that the queue may have: a reading, in which the clock stands at B
    pub least: usize,
    // 1 where the last clock, or the tables that hold it, are not sound
    pub repair: u8,
}

// 02, 2.2: each frame of the queue is to be due after the last clock, where that is sound; where it is not, "no due clock before v is
// accepted".
pub fn open_clock(setup: Setup, clock: usize, sound: bool, last: usize) -> OpenedClock
    requires { Timed (setup_of setup) clock × LastClock (setup_of setup) clock sound last }
    ensures { ClockOpened (setup_of setup) clock sound last result.least result.repair }
{
    let modulus = setup.modulus as usize;
    if !sound {
        return OpenedClock {
            least: modulus,
            repair: 1,
        };
    }
    let k = clock_step(modulus, last, clock);
    OpenedClock {
        least: modulus + 1 - k,
        repair: 0,
    }
}
