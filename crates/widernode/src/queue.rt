// The hold-back queue (01: the shelf) within one tick, by both pairs of limits: opened, and what is due delivered.
ghost use Rattle.std.specs.Prelude.{◌≡◌, ◌≤◌, length, replicate};
ghost use Rattle.model.specs.Schedule.{widest_of, own_limits};
ghost use Rattle.model.specs.Tick.{holdback_size};
ghost use Rattle.holdback.specs.Seen.{table_length};
ghost use Rattle.holdback.specs.Sound.{Recent};
ghost use Rattle.pairs.specs.Views.{schedule_of};
ghost use Rattle.widernode.specs.States.{Timed, QueueJudged, QueueOpened, OverdueGiven, Closing, Delivered};

use holdback::{Place, empty};
use node::OpenedQueue;
use pairs::Pairs;
use widerqueue::{cut_due, release, sound};

// What judging the queue answers beside the buffers.
#[derive(Drop)]
struct JudgedQueue {
    // 2 where it was emptied
    repair: u8,
    // how many frames it has
    count: usize,
    // where they end
    end: usize,
}

// 01, tick 1: "An unsound shelf is emptied (mend 2; both, mend 3)". The table of origins gets those of the frames.
fn judge_queue(
    p: Pairs,
    clock: usize,
    least: usize,
    holdback: &mut [u8],
    seen: &mut [u64],
) -> JudgedQueue
    requires timed { Timed (schedule_of p) clock × Recent (own_limits (schedule_of p)) least }
    requires holdback_len { (length holdback.old ≡ holdback_size (widest_of (schedule_of p))) × (seen.old ≡ replicate table_length 0) }
    ensures { QueueJudged (schedule_of p) clock least holdback.old result.repair result.count result.end holdback.new seen.new }
{
    let walk = sound(p, clock, least, holdback, seen);
    if walk.sound {
        return JudgedQueue {
            repair: 0,
            count: walk.count,
            end: walk.end,
        };
    }
    empty(holdback);
    JudgedQueue {
        repair: 2,
        count: walk.count,
        end: walk.end,
    }
}

// The queue judged, and then 02, 2.2: "Frames whose due clock lies before v go out before the bundle is judged".
pub fn open_queue(
    p: Pairs,
    clock: usize,
    least: usize,
    holdback: &mut [u8],
    seen: &mut [u64],
    delivery: &mut [u8],
) -> OpenedQueue
    requires timed { Timed (schedule_of p) clock × Recent (own_limits (schedule_of p)) least }
    requires holdback_len { (length holdback.old ≡ holdback_size (widest_of (schedule_of p))) × (holdback_size (widest_of (schedule_of p)) ≤ length delivery.old) }
    requires seen_value { seen.old ≡ replicate table_length 0 }
    ensures queue_opened { QueueOpened (schedule_of p) clock least holdback.old result.repair result.count result.end holdback.new seen.new }
    ensures overdue_given { OverdueGiven (schedule_of p) clock least holdback.old delivery.old result.overdue.index result.overdue.at delivery.new }
{
    let judged = judge_queue(p, clock, least, holdback, seen);
    let count = judged.count;
    let end = judged.end;
    let overdue = release(p, clock, holdback, count, end, seen, delivery);
    OpenedQueue {
        repair: judged.repair,
        count: count - overdue.index,
        end: end + 2 - overdue.at,
        overdue,
    }
}

// 01, tick 6: every frame that is due "is handed out, in order, and leaves the shelf", behind those that were due before v. Answers how many
// are handed out in all.
pub fn deliver(
    p: Pairs,
    clock: usize,
    count: usize,
    end: usize,
    overdue: Place,
    holdback: &mut [u8],
    delivery: &mut [u8],
) -> usize
    requires { Closing (schedule_of p) clock count end overdue.index overdue.at holdback.old delivery.old }
    ensures { Delivered (schedule_of p) clock overdue.index holdback.old delivery.old result holdback.new delivery.new }
{
    overdue.index + cut_due(p, clock, holdback, count, end, delivery, overdue)
}
