// The hold-back queue (01: the shelf) within one tick: opened, and what is due delivered.
ghost use Rattle.std.specs.Prelude.{◌≡◌, ◌≤◌, length, replicate};
ghost use Rattle.setup.specs.Views.{setup_of};
ghost use Rattle.model.specs.Tick.{holdback_size};
ghost use Rattle.holdback.specs.Seen.{table_length};
ghost use Rattle.holdback.specs.Sound.{Recent};
ghost use Rattle.holdback.specs.Starts.{all_front};
ghost use Rattle.holdback.specs.Overdue.{Tabled};
ghost use Rattle.node.specs.States.{Timed, Stored, Closing, QueueJudged, QueueOpened, OverdueGiven, Delivered};

use holdback::{Place, cut_due, empty, release, sound};
use setup::Setup;

// What judging the queue answers beside the buffers.
#[derive(Drop)]
struct JudgedQueue {
    // 2 where it was emptied
    repair: u8,
    // how many frames it has
    count: usize,
    // where they end
    end: usize,
}

// 01, tick 1: "An unsound shelf is emptied (mend 2; both, mend 3)". The table of origins gets those of the frames, and the table of
// starts where the frames of each sum start.
fn judge_queue(
    setup: Setup,
    clock: usize,
    least: usize,
    holdback: &mut [u8],
    seen: &mut [u64],
    starts: &mut [u32],
) -> JudgedQueue
    requires timed { Timed (setup_of setup) clock × Recent (setup_of setup) least }
    requires stored { Stored (setup_of setup) holdback.old }
    requires seen_value { (seen.old ≡ replicate table_length 0) × (starts.old ≡ all_front) }
    ensures { QueueJudged (setup_of setup) clock least holdback.old result.repair result.count result.end holdback.new seen.new starts.new }
{
    let walk = sound(setup, clock, least, holdback, seen, starts);
    if walk.sound {
        return JudgedQueue {
            repair: 0,
            count: walk.count,
            end: walk.end,
        };
    }
    empty(holdback);
    JudgedQueue {
        repair: 2,
        count: walk.count,
        end: walk.end,
    }
}

// What opening the queue answers beside the buffers.
#[derive(Drop)]
pub struct OpenedQueue {
    // 2 where it was emptied
    pub repair: u8,
    // how many frames it has
    pub count: usize,
    // where they end
    pub end: usize,
    // how many frames are handed out, and where they end in the delivery
    pub overdue: Place,
}

// The queue judged, and then 02, 2.2: "Frames whose due clock lies before v go out before the bundle is judged".
pub fn open_queue(
    setup: Setup,
    clock: usize,
    least: usize,
    holdback: &mut [u8],
    seen: &mut [u64],
    starts: &mut [u32],
    delivery: &mut [u8],
) -> OpenedQueue
    requires timed { Timed (setup_of setup) clock × Recent (setup_of setup) least }
    requires stored { Stored (setup_of setup) holdback.old × (holdback_size (setup_of setup) ≤ length delivery.old) }
    requires seen_value { (seen.old ≡ replicate table_length 0) × (starts.old ≡ all_front) }
    ensures queue_opened { QueueOpened (setup_of setup) clock least holdback.old result.repair result.count result.end holdback.new seen.new starts.new }
    ensures overdue_given { OverdueGiven (setup_of setup) clock least holdback.old delivery.old result.overdue.index result.overdue.at delivery.new }
{
    let judged = judge_queue(setup, clock, least, holdback, seen, starts);
    let count = judged.count;
    let end = judged.end;
    let overdue = release(setup, clock, holdback, count, end, seen, starts, delivery);
    OpenedQueue {
        repair: judged.repair,
        count: count - overdue.index,
        end: end + 2 - overdue.at,
        overdue,
    }
}

// 01, tick 6: every frame that is due "is handed out, in order, and leaves the shelf", behind those that were due before v. Answers how many
// are handed out in all.
pub fn deliver(
    setup: Setup,
    clock: usize,
    count: usize,
    end: usize,
    overdue: Place,
    holdback: &mut [u8],
    starts: &[u32],
    delivery: &mut [u8],
) -> usize
    requires { Closing (setup_of setup) clock count end overdue.index overdue.at holdback.old delivery.old × Tabled (setup_of setup) clock holdback.old starts.now }
    ensures { Delivered (setup_of setup) clock overdue.index holdback.old delivery.old result holdback.new delivery.new }
{
    overdue.index
        + cut_due(
            setup, clock, holdback, count, end, starts, delivery, overdue,
        )
}
