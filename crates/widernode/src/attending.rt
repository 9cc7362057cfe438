// What a node and an observer share of a call with both pairs of limits: the queue opened, the batch heard, and what is due delivered.
ghost use Rattle.std.specs.Prelude.{◌≡◌};
ghost use Rattle.model.specs.Timestamp.{trimmed, widened};
ghost use Rattle.model.specs.Batch.{batch_entries};
ghost use Rattle.model.specs.Schedule.{own_limits};
ghost use Rattle.timestamp.specs.Views.{stamp_of};
ghost use Rattle.holdback.specs.Sound.{Recent};
ghost use Rattle.pairs.specs.Views.{schedule_of};
ghost use Rattle.widernode.specs.States.{Timed, Attending, AttendedQueue, attended_all, absorbed_for};

use crate::hearing::hear;
use crate::queue::{deliver, open_queue};
use holdback::TABLE_LENGTH;
use node::{Attended, is_idle, pass_over};
use pairs::Pairs;
use timestamp::Timestamp;

// 01, tick 1, 3 and 6, of the queue, by the least due clock that it may have. The table of origins lives here; a call that has nothing to do needs
// none. One that only `listens` is an observer, and its stamp stays.
pub fn attend(
    p: Pairs,
    clock: usize,
    listens: bool,
    least: usize,
    stamp: Timestamp,
    batch: &[u8],
    holdback: &mut [u8],
    verdicts: &mut [u8],
    delivery: &mut [u8],
) -> Attended
    requires timed { Timed (schedule_of p) clock × Recent (own_limits (schedule_of p)) least }
    requires attending { Attending (schedule_of p) (stamp_of stamp) batch.now holdback.old verdicts.old delivery.old }
    ensures attended_queue { AttendedQueue listens (schedule_of p) clock least batch.now holdback.old verdicts.old delivery.old
        result.repair result.taken result.delivered holdback.new verdicts.new delivery.new }
    ensures stamp_value { stamp_of result.stamp ≡ widened (absorbed_for listens (schedule_of p) clock (trimmed (own_limits (schedule_of p)).epsilon (stamp_of stamp))
        (batch_entries batch.now) (attended_all listens (schedule_of p) clock least batch.now holdback.old).verdicts) }
{
    if is_idle(holdback, batch) {
        return pass_over(stamp, holdback, delivery);
    }
    let mut seen = [0u64; TABLE_LENGTH];
    let opened = open_queue(p, clock, least, holdback, &mut seen, delivery);
    let overdue = opened.overdue;
    let heard = hear(
        p,
        clock,
        listens,
        stamp,
        batch,
        opened.count,
        opened.end,
        holdback,
        &mut seen,
        verdicts,
    );
    let absorbed = heard.stamp;
    let count = heard.count;
    let end = heard.end;
    let delivered = deliver(p, clock, count, end, overdue, holdback, delivery);
    Attended {
        stamp: absorbed,
        repair: opened.repair,
        taken: heard.taken,
        delivered,
    }
}
