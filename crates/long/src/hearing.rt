// 01, tick 3: "Each frame of the bundle is judged in turn". 02, 2.9: a taken frame goes behind the last, and its stamp into the own one.
ghost use Rattle.std.specs.Prelude.{◌≡◌};
ghost use Rattle.model.specs.Timestamp.{trimmed, widened};
ghost use Rattle.model.specs.Long.{long_decode, long_absorb_by};
ghost use Rattle.setup.specs.Views.{setup_of};
ghost use Rattle.timestamp.specs.Views.{stamp_of};
ghost use Rattle.node.specs.States.{Hearing};
ghost use Rattle.long.specs.States.{Timed, Readable, Holding, HeardQueue, HeardStamp};

use crate::questions::judge;
use batch::count_of;
use batch::walker::walk_entry;
use longframe::{r_of, six_on};
use longqueue::append;
use node::absorb_counts;
use setup::Setup;
use timestamp::Timestamp;

// "c and each count become the larger of own and frame's, both placed relative to v", as plain numbers.
fn absorb_frame(setup: Setup, clock: usize, stamp: Timestamp, frame: &[u8]) -> Timestamp
    requires readable { Readable (setup_of setup) clock frame.now }
    requires stamp_value { stamp_of stamp ≡ widened (trimmed setup.epsilon (stamp_of stamp)) }
    ensures { stamp_of result
        ≡ widened (long_absorb_by 0 (setup_of setup) clock (long_decode setup.epsilon frame.now) (trimmed setup.epsilon (stamp_of stamp))) }
{
    let later = six_on(frame);
    let r = r_of(frame);
    absorb_counts(setup, clock, stamp, later, r)
}

// What hearing answers beside the buffers.
#[derive(Drop)]
pub struct Heard {
    pub stamp: Timestamp,
    // how many frames were taken
    pub taken: usize,
    // how many frames the queue has
    pub count: usize,
    // where they end
    pub end: usize,
}

// The hearing loop. The batch's walker says where each entry stands. Of each entry the number is recorded; a taken one, whose number is 0, is
// one frame more for the queue, and moves its end by the frame's length.
pub fn hear(
    setup: Setup,
    clock: usize,
    stamp: Timestamp,
    batch: &[u8],
    count: usize,
    end: usize,
    holdback: &mut [u8],
    verdicts: &mut [u8],
) -> Heard
    requires timed { Timed (setup_of setup) clock }
    requires holding { Holding (setup_of setup) holdback.old count end }
    requires hearing { Hearing setup.epsilon (stamp_of stamp) batch.now verdicts.old }
    ensures heard_queue { HeardQueue (setup_of setup) clock batch.now holdback.old verdicts.old
        result.taken result.count result.end holdback.new verdicts.new }
    ensures heard_stamp { HeardStamp (setup_of setup) clock (stamp_of stamp) batch.now holdback.old (stamp_of result.stamp) }
{
    let entries = count_of(batch);
    let mut absorbed = stamp;
    let mut taken = 0;
    let mut held = count;
    let mut stop = end;
    let mut at = 1;
    let mut i = 0;
    while i < entries {
        let span = walk_entry(batch, at);
        let start = span.start;
        at = span.end;
        let s = &batch[start..at];
        let number = judge(setup, clock, holdback, held, s);
        verdicts[i] = number;
        i += 1;
        if number != 0 {
            continue;
        }
        append(setup, holdback, held, stop, s);
        absorbed = absorb_frame(setup, clock, absorbed, s);
        held += 1;
        stop += s.len();
        taken += 1;
    }
    Heard {
        stamp: absorbed,
        taken,
        count: held,
        end: stop,
    }
}
