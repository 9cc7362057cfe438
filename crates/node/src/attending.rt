// What a node and an observer share of a call: the queue opened, the batch heard, and what is due delivered.
ghost use Rattle.setup.specs.Views.{setup_of};
ghost use Rattle.timestamp.specs.Views.{stamp_of};
ghost use Rattle.holdback.specs.Sound.{Recent};
ghost use Rattle.node.specs.States.{Timed, Attending, AttendedQueue, AttendedStamp};

use crate::hearing::hear;
use crate::idle::{is_idle, pass_over};
use crate::queue::{deliver, open_queue};
use holdback::{FRONT, START_ENTRIES, TABLE_LENGTH};
use setup::Setup;
use timestamp::Timestamp;

// What it answers beside the buffers.
#[derive(Drop)]
pub struct Attended {
    pub stamp: Timestamp,
    // 2 where the queue was emptied
    pub repair: u8,
    pub taken: usize,
    pub delivered: usize,
}

// 01, tick 1, 3 and 6, of the queue, by the least due clock that it may have. The tables of origins and of starts live here; a call that has
// nothing to do needs none. One that only `listens` is an observer, and its stamp stays.
pub fn attend(
    setup: Setup,
    clock: usize,
    listens: bool,
    least: usize,
    stamp: Timestamp,
    batch: &[u8],
    holdback: &mut [u8],
    verdicts: &mut [u8],
    delivery: &mut [u8],
) -> Attended
    requires timed { Timed (setup_of setup) clock × Recent (setup_of setup) least }
    requires attending { Attending (setup_of setup) (stamp_of stamp) batch.now holdback.old verdicts.old delivery.old }
    ensures attended_queue { AttendedQueue listens (setup_of setup) clock least batch.now holdback.old verdicts.old delivery.old
        result.repair result.taken result.delivered holdback.new verdicts.new delivery.new }
    ensures attended_stamp { AttendedStamp listens (setup_of setup) clock least (stamp_of stamp) batch.now holdback.old (stamp_of result.stamp) }
{
    if is_idle(holdback, batch) {
        return pass_over(stamp, holdback, delivery);
    }
    let mut seen = [0u64; TABLE_LENGTH];
    let mut starts = [FRONT; START_ENTRIES];
    let opened = open_queue(
        setup,
        clock,
        least,
        holdback,
        &mut seen,
        &mut starts,
        delivery,
    );
    let overdue = opened.overdue;
    let heard = hear(
        setup,
        clock,
        listens,
        stamp,
        batch,
        opened.count,
        opened.end,
        holdback,
        &mut seen,
        &mut starts,
        verdicts,
    );
    let absorbed = heard.stamp;
    let count = heard.count;
    let end = heard.end;
    let delivered = deliver(
        setup, clock, count, end, overdue, holdback, &starts, delivery,
    );
    Attended {
        stamp: absorbed,
        repair: opened.repair,
        taken: heard.taken,
        delivered,
    }
}
