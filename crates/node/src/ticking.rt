// 01, "One tick at clock v".
ghost use Rattle.std.specs.Prelude.{◌≡◌};
ghost use Rattle.model.specs.Question.{first_no};
ghost use Rattle.model.specs.Tick as model;
ghost use Rattle.setup.specs.Views.{setup_of};
ghost use Rattle.timestamp.specs.Views.{stamp_of};
ghost use Rattle.node.specs.Views.{call_input};
ghost use Rattle.node.specs.Answers.{call_output};
ghost use Rattle.node.specs.States.{Timed, StampOpened};

use crate::attending::attend;
use crate::call::check_call;
use crate::clock::open_clock;
use crate::sending::send_frame;
use setup::Setup;
use timestamp::{Timestamp, clock_step};

// The stamp with which hearing starts, the least due clock that the queue may have, and the tables' share of the repair.
#[derive(Drop)]
pub struct Opening {
    pub stamp: Timestamp,
    // a reading, in which the clock stands at B
    pub least: usize,
    // 1 where the tables were replaced
    pub repair: u8,
}

// 01, tick 1 and 2: sound tables take a step; "Unsound tables are replaced by c 0 and no counts at all (mend 1)". 02, 2.2: the last
// clock is "r of the tables".
fn open_stamp(setup: Setup, clock: usize, tables: Timestamp) -> Opening
    requires { Timed (setup_of setup) clock }
    ensures { StampOpened (setup_of setup) clock (stamp_of tables) (stamp_of result.stamp) result.least result.repair }
{
    let n = setup.n as usize;
    let epsilon = setup.epsilon as usize;
    let modulus = setup.modulus as usize;
    let sound = tables.is_sound_for(n, epsilon, modulus, clock);
    let opened = open_clock(setup, clock, sound, tables.r);
    let least = opened.least;
    let repair = opened.repair;
    if !sound {
        let stamp = Timestamp::replaced(clock);
        return Opening {
            stamp,
            least,
            repair,
        };
    }
    let k = clock_step(modulus, tables.r, clock);
    let stamp = tables.step(epsilon, k, clock);
    Opening {
        stamp,
        least,
        repair,
    }
}

// 01: "The answer gives 0, new tables, mend, frames taken, frames handed out, outgoing length (0 if none)".
#[derive(Drop)]
pub struct Answer {
    // 0, or the number of the first no
    pub number: u8,
    pub tables: Timestamp,
    // 01: mend
    pub repair: u8,
    pub taken: usize,
    pub delivered: usize,
    pub sent: usize,
}

// An accepted call.
fn accept(
    setup: Setup,
    own: u32,
    clock: usize,
    tables: Timestamp,
    holdback: &mut [u8],
    batch: &[u8],
    send: bool,
    payload: &[u8],
    outgoing: &mut [u8],
    verdicts: &mut [u8],
    delivery: &mut [u8],
) -> Answer
    requires { first_no (model.call_questions (call_input setup own clock tables holdback.old batch.now send payload.now
        outgoing.old verdicts.old delivery.old)) ≡ 0 }
    ensures { call_output result holdback.new outgoing.new verdicts.new delivery.new
        ≡ model.tick (call_input setup own clock tables holdback.old batch.now send payload.now
        outgoing.old verdicts.old delivery.old) }
{
    let opening = open_stamp(setup, clock, tables);
    let opened = opening.stamp;
    let attended = attend(
        setup,
        clock,
        false,
        opening.least,
        opened,
        batch,
        holdback,
        verdicts,
        delivery,
    );
    let absorbed = attended.stamp;
    let stamp = absorbed.count_own(setup.epsilon as usize, clock);
    let sent = send_frame(setup, own, stamp, send, payload, outgoing);
    Answer {
        number: 0,
        tables: stamp,
        repair: opening.repair + attended.repair,
        taken: attended.taken,
        delivered: attended.delivered,
        sent,
    }
}

// The tick. Any arguments get an answer; a refused call keeps its tables and all buffers.
pub fn tick(
    setup: Setup,
    own: u32,
    clock: usize,
    tables: Timestamp,
    holdback: &mut [u8],
    batch: &[u8],
    send: bool,
    payload: &[u8],
    outgoing: &mut [u8],
    verdicts: &mut [u8],
    delivery: &mut [u8],
) -> Answer
    ensures { call_output result holdback.new outgoing.new verdicts.new delivery.new
        ≡ model.tick (call_input setup own clock tables holdback.old batch.now send payload.now
        outgoing.old verdicts.old delivery.old) }
{
    let number = check_call(
        setup, own, clock, holdback, batch, payload, outgoing, verdicts, delivery,
    );
    if number != 0 {
        return Answer {
            number,
            tables,
            repair: 0,
            taken: 0,
            delivered: 0,
            sent: 0,
        };
    }
    accept(
        setup, own, clock, tables, holdback, batch, send, payload, outgoing, verdicts, delivery,
    )
}
