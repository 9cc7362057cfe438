// The queue opened, the batch heard, and what is due handed out.
ghost use Rattle.setup.specs.Views.{setup_of};
ghost use Rattle.timestamp.specs.Views.{stamp_of};
ghost use Rattle.long.specs.States.{Timed, Attending, AttendedQueue, AttendedStamp};

use crate::hearing::hear;
use longdelivery::deliver;
use longqueue::open;
use node::Attended;
use setup::Setup;
use timestamp::Timestamp;

// 01, tick 1, 3 and 6, of the queue, by the least due clock that it may have. 02, 2.9: what is due before v is held until the hand-out too.
pub fn attend(
    setup: Setup,
    clock: usize,
    least: usize,
    stamp: Timestamp,
    batch: &[u8],
    holdback: &mut [u8],
    verdicts: &mut [u8],
    delivery: &mut [u8],
) -> Attended
    requires timed { Timed (setup_of setup) clock }
    requires attending { Attending (setup_of setup) (stamp_of stamp) batch.now holdback.old verdicts.old delivery.old }
    ensures attended_queue { AttendedQueue (setup_of setup) clock least batch.now holdback.old verdicts.old delivery.old
        result.repair result.taken result.delivered holdback.new verdicts.new delivery.new }
    ensures attended_stamp { AttendedStamp (setup_of setup) clock least (stamp_of stamp) batch.now holdback.old (stamp_of result.stamp) }
{
    let opened = open(setup, clock, least, holdback);
    let heard = hear(
        setup,
        clock,
        stamp,
        batch,
        opened.count,
        opened.end,
        holdback,
        verdicts,
    );
    let absorbed = heard.stamp;
    let delivered = deliver(setup, clock, holdback, heard.count, heard.end, delivery);
    Attended {
        stamp: absorbed,
        repair: opened.repair,
        taken: heard.taken,
        delivered,
    }
}
