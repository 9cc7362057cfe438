// 01, tick 3: "Each frame of the bundle is judged in turn", by both pairs of limits. A taken frame goes on the queue, and its stamp into the own
// one.
ghost use Rattle.std.specs.Prelude.{◌≡◌, cond};
ghost use Rattle.model.specs.Timestamp.{trimmed, widened};
ghost use Rattle.model.specs.Batch.{batch_entries};
ghost use Rattle.model.specs.Schedule.{own_limits};
ghost use Rattle.model.specs.Wider.{wider_decode, wider_reading, wider_absorb_by};
ghost use Rattle.timestamp.specs.Views.{stamp_of};
ghost use Rattle.node.specs.States.{Hearing};
ghost use Rattle.pairs.specs.Views.{schedule_of};
ghost use Rattle.widerqueue.specs.Queue.{Extent};
ghost use Rattle.widernode.specs.States.{Timed, Readable, Queued, Taking, Enqueued, heard_all, HeardQueue, absorbed_for};

use crate::questions::judge;
use batch::count_of;
use batch::walker::walk_entry;
use frame::{c_of, counts_part};
use holdback::mark;
use node::{Heard, Placed, Verdict, number_of};
use pairs::{Pairs, own_limits};
use timestamp::Timestamp;
use widerframe::half_in;
use widerqueue::put;
use widerstamp::absorb_into;

// "A taken frame goes on the shelf". Its origin is marked. The queue has `count` frames, which end at `end`; the frame's r is read already.
fn enqueue(
    p: Pairs,
    clock: usize,
    placed: Placed,
    count: usize,
    end: usize,
    frame: &[u8],
    holdback: &mut [u8],
    seen: &mut [u64],
)
    requires taking { Taking (schedule_of p) clock holdback.old placed.place.index placed.place.at frame.now × Queued (schedule_of p) clock holdback.old seen.old }
    requires extent { Extent (schedule_of p) holdback.old count end × (placed.reading ≡ wider_reading (schedule_of p) clock (wider_decode (schedule_of p) frame.now)) }
    ensures { Enqueued (schedule_of p) clock placed.place.index frame.now holdback.old count end
        holdback.new seen.new }
{
    let place = placed.place;
    let reading = placed.reading;
    let own = own_limits(p);
    put(p, holdback, count, end, place, frame);
    mark(own, clock, frame, reading, seen);
}

// "c and each count become the larger of own and frame's, both placed relative to v": of a frame whose r is read already. Its counts, of its own
// width, are read where they stand. 02, 2.6: one that only listens keeps "no counts", and its stamp stays.
fn absorb_frame(
    p: Pairs,
    clock: usize,
    listens: bool,
    stamp: Timestamp,
    frame: &[u8],
    reading: usize,
) -> Timestamp
    requires readable { Readable (schedule_of p) clock frame.now × (reading ≡ wider_reading (schedule_of p) clock (wider_decode (schedule_of p) frame.now)) }
    requires stamp_value { stamp_of stamp ≡ widened (trimmed (own_limits (schedule_of p)).epsilon (stamp_of stamp)) }
    ensures { stamp_of result ≡ cond listens (stamp_of stamp)
        (widened (wider_absorb_by (schedule_of p) 0 clock (wider_decode (schedule_of p) frame.now) (trimmed (own_limits (schedule_of p)).epsilon (stamp_of stamp)))) }
{
    if listens {
        return stamp;
    }
    let own = own_limits(p);
    let half = half_in(p, frame);
    let c = c_of(frame);
    let counts = counts_part(half, frame);
    absorb_into(
        stamp,
        own.epsilon as usize,
        half,
        own.modulus as usize,
        reading,
        c,
        counts,
    )
}

// The hearing loop. The batch's walker says where each entry stands. A verdict is taken apart for its place; of a refused
// frame the number is recorded, and it goes on. A taken one is one frame more for the queue, and moves its end by the frame's length.
// 02, 2.6: one that only listens judges frames "not" by 15, and absorbs none.
pub fn hear(
    p: Pairs,
    clock: usize,
    listens: bool,
    stamp: Timestamp,
    batch: &[u8],
    count: usize,
    end: usize,
    holdback: &mut [u8],
    seen: &mut [u64],
    verdicts: &mut [u8],
) -> Heard
    requires timed { Timed (schedule_of p) clock }
    requires queued { Queued (schedule_of p) clock holdback.old seen.old × Extent (schedule_of p) holdback.old count end }
    requires hearing { Hearing (own_limits (schedule_of p)).epsilon (stamp_of stamp) batch.now verdicts.old }
    ensures heard_queue { HeardQueue listens (schedule_of p) clock batch.now holdback.old verdicts.old
        result.taken result.count result.end holdback.new seen.new verdicts.new }
    ensures stamp_value { stamp_of result.stamp ≡ widened (absorbed_for listens (schedule_of p) clock (trimmed (own_limits (schedule_of p)).epsilon (stamp_of stamp))
        (batch_entries batch.now) (heard_all listens (schedule_of p) clock batch.now holdback.old).verdicts) }
{
    let entries = count_of(batch);
    let mut absorbed = stamp;
    let mut taken = 0;
    let mut held = count;
    let mut stop = end;
    let mut at = 1;
    let mut i = 0;
    while i < entries {
        let span = walk_entry(batch, at);
        let start = span.start;
        at = span.end;
        let s = &batch[start..at];
        let verdict = judge(p, clock, listens, holdback, held, seen, s);
        let Verdict::Taken(placed) = verdict else {
            verdicts[i] = number_of(verdict);
            i += 1;
            continue;
        };
        enqueue(p, clock, placed, held, stop, s, holdback, seen);
        absorbed = absorb_frame(p, clock, listens, absorbed, s, placed.reading);
        held += 1;
        stop += s.len();
        verdicts[i] = 0;
        taken += 1;
        i += 1;
    }
    Heard {
        stamp: absorbed,
        taken,
        count: held,
        end: stop,
    }
}
