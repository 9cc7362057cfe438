// 01, tick 3: "Each frame of the bundle is judged in turn". A taken frame goes on the queue, and its stamp into the own one: two
// halves that know nothing of each other.
ghost use Rattle.std.specs.Prelude.{◌≡◌, cond};
ghost use Rattle.model.specs.Timestamp.{trimmed, widened, absorb};
ghost use Rattle.model.specs.Frame.{decode};
ghost use Rattle.model.specs.Order.{reading_of};
ghost use Rattle.model.specs.Judge.{absorb_by};
ghost use Rattle.setup.specs.Views.{setup_of};
ghost use Rattle.timestamp.specs.Views.{stamp_of};
ghost use Rattle.node.specs.States.{Timed, Readable, Askable, Queued, Extent, Taking, Enqueued, Hearing, HeardQueue, HeardStamp};

use crate::questions::judge;
use crate::verdict::{Placed, Verdict, number_of};
use batch::count_of;
use batch::walker::walk_entry;
use frame::{c_of, counts_part};
use holdback::{START_UNIT, mark, put, shift_starts, sum_wait, used_entries};
use setup::Setup;
use timestamp::Timestamp;

// "A taken frame goes on the shelf". Its origin is marked, and the starts of the larger sums move. The queue has `count` frames,
// which end at `end`; the frame's r is read already.
fn enqueue(
    setup: Setup,
    clock: usize,
    placed: Placed,
    count: usize,
    end: usize,
    frame: &[u8],
    holdback: &mut [u8],
    seen: &mut [u64],
    starts: &mut [u32],
)
    requires taking { Taking (setup_of setup) clock holdback.old placed.place.index placed.place.at frame.now }
    requires queued { Queued (setup_of setup) clock holdback.old seen.old starts.old }
    requires extent { Extent setup.epsilon holdback.old count end × (placed.reading ≡ reading_of (setup_of setup) clock (decode setup.epsilon frame.now)) }
    ensures { Enqueued (setup_of setup) clock placed.place.index frame.now holdback.old count end
        holdback.new seen.new starts.new }
{
    let place = placed.place;
    let reading = placed.reading;
    put(setup.epsilon as usize, holdback, count, end, place, frame);
    let k = sum_wait(setup, clock, frame, reading);
    let to = used_entries(setup);
    shift_starts(starts, k + 1, to, (START_UNIT + frame.len()) as u32);
    mark(setup, clock, frame, reading, seen);
}

// "c and each count become the larger of own and frame's, both placed relative to v": of a frame whose r is read already, and v at its own
// reading: B at a station, and v itself where clocks are long (02, 2.9). Its counts are read where they stand.
pub fn absorb_counts(
    setup: Setup,
    at: usize,
    stamp: Timestamp,
    frame: &[u8],
    reading: usize,
) -> Timestamp
    requires { Askable (setup_of setup) at reading frame.now × (stamp_of stamp ≡ widened (trimmed setup.epsilon (stamp_of stamp))) }
    ensures { stamp_of result
        ≡ widened (absorb setup.epsilon at (trimmed setup.epsilon (stamp_of stamp)) reading (decode setup.epsilon frame.now).stamp) }
{
    let epsilon = setup.epsilon as usize;
    let c = c_of(frame);
    let counts = counts_part(epsilon, frame);
    stamp.absorb(epsilon, at, reading, c, counts)
}

// The same of a taken frame at a station. 02, 2.6: one that only listens keeps "no counts", and its stamp stays.
fn absorb_frame(
    setup: Setup,
    clock: usize,
    listens: bool,
    stamp: Timestamp,
    frame: &[u8],
    reading: usize,
) -> Timestamp
    requires readable { Readable (setup_of setup) clock frame.now × (reading ≡ reading_of (setup_of setup) clock (decode setup.epsilon frame.now)) }
    requires stamp_value { stamp_of stamp ≡ widened (trimmed setup.epsilon (stamp_of stamp)) }
    ensures { stamp_of result ≡ cond listens (stamp_of stamp)
        (widened (absorb_by 0 (setup_of setup) clock (decode setup.epsilon frame.now) (trimmed setup.epsilon (stamp_of stamp)))) }
{
    if listens {
        return stamp;
    }
    let modulus = setup.modulus as usize;
    absorb_counts(setup, modulus, stamp, frame, reading)
}

// What hearing answers beside the buffers.
#[derive(Drop)]
pub struct Heard {
    pub stamp: Timestamp,
    // how many frames were taken
    pub taken: usize,
    // how many frames the queue has
    pub count: usize,
    // where they end
    pub end: usize,
}

// The hearing loop. The batch's walker says where each entry stands. A verdict is taken apart for its place; of a refused
// frame the number is recorded, and it goes on. A taken one is one frame more for the queue, and moves its end by the frame's length.
// 02, 2.6: one that only listens judges frames "not" by 15, and absorbs none.
pub fn hear(
    setup: Setup,
    clock: usize,
    listens: bool,
    stamp: Timestamp,
    batch: &[u8],
    count: usize,
    end: usize,
    holdback: &mut [u8],
    seen: &mut [u64],
    starts: &mut [u32],
    verdicts: &mut [u8],
) -> Heard
    requires timed { Timed (setup_of setup) clock }
    requires queued { Queued (setup_of setup) clock holdback.old seen.old starts.old }
    requires extent { Extent setup.epsilon holdback.old count end }
    requires hearing { Hearing setup.epsilon (stamp_of stamp) batch.now verdicts.old }
    ensures heard_queue { HeardQueue listens (setup_of setup) clock batch.now holdback.old verdicts.old
        result.taken result.count result.end holdback.new seen.new starts.new verdicts.new }
    ensures heard_stamp { HeardStamp listens (setup_of setup) clock (stamp_of stamp) batch.now holdback.old (stamp_of result.stamp) }
{
    let entries = count_of(batch);
    let mut absorbed = stamp;
    let mut taken = 0;
    let mut held = count;
    let mut stop = end;
    let mut at = 1;
    let mut i = 0;
    while i < entries {
        let span = walk_entry(batch, at);
        let start = span.start;
        at = span.end;
        let s = &batch[start..at];
        let verdict = judge(setup, clock, listens, holdback, held, seen, starts, s);
        let Verdict::Taken(placed) = verdict else {
            verdicts[i] = number_of(verdict);
            i += 1;
            continue;
        };
        enqueue(setup, clock, placed, held, stop, s, holdback, seen, starts);
        absorbed = absorb_frame(setup, clock, listens, absorbed, s, placed.reading);
        held += 1;
        stop += s.len();
        verdicts[i] = 0;
        taken += 1;
        i += 1;
    }
    Heard {
        stamp: absorbed,
        taken,
        count: held,
        end: stop,
    }
}
