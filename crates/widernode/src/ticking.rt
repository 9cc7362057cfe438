// 01, "One tick at clock v"; 02, 2.10: "A tick uses the limits of its own clock".
ghost use Rattle.std.specs.Prelude.{◌≡◌};
ghost use Rattle.model.specs.Question.{first_no};
ghost use Rattle.model.specs.Wider.{wider_tables_sound, wider_acceptance, wider_call_questions, tick_in};
ghost use Rattle.setup.specs.declared.limits.Setup as setups;
ghost use Rattle.timestamp.specs.Views.{stamp_of};
ghost use Rattle.node.specs.Views.{call_input};
ghost use Rattle.node.specs.Answers.{call_output};
ghost use Rattle.pairs.specs.Views.{wider_of, schedule_of};
ghost use Rattle.widernode.specs.States.{Timed, StampOpened, Accepted};

use crate::attending::attend;
use crate::call::check_call;
use node::{Answer, Opening, open_clock, send_frame, tick};
use pairs::{Pairs, Wider, own_limits, pairs_near, same_pairs, tables_half};
use setup::Setup;
use timestamp::{Timestamp, clock_sound, clock_step};
use widerstamp::step_into;

// 01: the tables are "sound for a new clock v", by their own counts; 02: "Tables are narrow if their r is before V". How far r may lie before v is a
// limit of v.
fn tables_sound(p: Pairs, clock: usize, tables: Timestamp) -> bool
    requires { Timed (schedule_of p) clock }
    ensures { result ≡ wider_tables_sound (schedule_of p) clock (stamp_of tables) }
{
    let own = own_limits(p);
    let modulus = own.modulus as usize;
    if !clock_sound(own.epsilon as usize, modulus, clock, tables.r) {
        return false;
    }
    let half = tables_half(p, clock_step(modulus, tables.r, clock));
    tables.sound_beside(own.n as usize, half, true)
}

// 01, tick 1 and 2: sound tables take a step, into counts of the width of v; "Unsound tables are replaced by c 0 and no counts at all (mend 1)". 02,
// 2.2: the last clock is "r of the tables".
fn open_stamp(p: Pairs, clock: usize, tables: Timestamp) -> Opening
    requires { Timed (schedule_of p) clock }
    ensures { StampOpened (schedule_of p) clock (stamp_of tables) (stamp_of result.stamp) result.least result.repair }
{
    let own = own_limits(p);
    let sound = tables_sound(p, clock, tables);
    let opened = open_clock(own, clock, sound, tables.r);
    let least = opened.least;
    let repair = opened.repair;
    if !sound {
        let stamp = Timestamp::replaced(clock);
        return Opening {
            stamp,
            least,
            repair,
        };
    }
    let k = clock_step(own.modulus as usize, tables.r, clock);
    let half = tables_half(p, k);
    let stamp = step_into(tables, own.epsilon as usize, half, k, clock);
    Opening {
        stamp,
        least,
        repair,
    }
}

// An accepted call. The setup that was asked about makes no difference any more.
fn accept(
    p: Pairs,
    own: u32,
    clock: usize,
    tables: Timestamp,
    holdback: &mut [u8],
    batch: &[u8],
    send: bool,
    payload: &[u8],
    outgoing: &mut [u8],
    verdicts: &mut [u8],
    delivery: &mut [u8],
) -> Answer
    requires { Accepted (schedule_of p) own clock holdback.old batch.now payload.now outgoing.old verdicts.old delivery.old }
    ensures { (given : setups.Setup) → call_output result holdback.new outgoing.new verdicts.new delivery.new
        ≡ wider_acceptance (schedule_of p) (call_input given own clock tables holdback.old batch.now send payload.now
        outgoing.old verdicts.old delivery.old) }
{
    let opening = open_stamp(p, clock, tables);
    let opened = opening.stamp;
    let attended = attend(
        p,
        clock,
        false,
        opening.least,
        opened,
        batch,
        holdback,
        verdicts,
        delivery,
    );
    let absorbed = attended.stamp;
    let limits = own_limits(p);
    let stamp = absorbed.count_own(limits.epsilon as usize, clock);
    let sent = send_frame(limits, own, stamp, send, payload, outgoing);
    Answer {
        number: 0,
        tables: stamp,
        repair: opening.repair + attended.repair,
        taken: attended.taken,
        delivered: attended.delivered,
        sent,
    }
}

// A call that no question refused. With equal pairs it is the plain tick.
fn tick_passed(
    setup: Setup,
    wider: Wider,
    own: u32,
    clock: usize,
    tables: Timestamp,
    holdback: &mut [u8],
    batch: &[u8],
    send: bool,
    payload: &[u8],
    outgoing: &mut [u8],
    verdicts: &mut [u8],
    delivery: &mut [u8],
) -> Answer
    requires { first_no (wider_call_questions (wider_of wider) (call_input setup own clock tables holdback.old batch.now send payload.now
        outgoing.old verdicts.old delivery.old)) ≡ 0 }
    ensures { call_output result holdback.new outgoing.new verdicts.new delivery.new
        ≡ tick_in (wider_of wider) (call_input setup own clock tables holdback.old batch.now send payload.now
        outgoing.old verdicts.old delivery.old) }
{
    if same_pairs(setup, wider) {
        return tick(
            setup, own, clock, tables, holdback, batch, send, payload, outgoing, verdicts, delivery,
        );
    }
    let p = pairs_near(setup, wider, clock);
    accept(
        p, own, clock, tables, holdback, batch, send, payload, outgoing, verdicts, delivery,
    )
}

// The tick. Any arguments get an answer; a refused call keeps its tables and all buffers.
pub fn tick_in(
    setup: Setup,
    wider: Wider,
    own: u32,
    clock: usize,
    tables: Timestamp,
    holdback: &mut [u8],
    batch: &[u8],
    send: bool,
    payload: &[u8],
    outgoing: &mut [u8],
    verdicts: &mut [u8],
    delivery: &mut [u8],
) -> Answer
    ensures { call_output result holdback.new outgoing.new verdicts.new delivery.new
        ≡ tick_in (wider_of wider) (call_input setup own clock tables holdback.old batch.now send payload.now
        outgoing.old verdicts.old delivery.old) }
{
    let number = check_call(
        setup, wider, own, clock, holdback, batch, payload, outgoing, verdicts, delivery,
    );
    if number != 0 {
        return Answer {
            number,
            tables,
            repair: 0,
            taken: 0,
            delivered: 0,
            sent: 0,
        };
    }
    tick_passed(
        setup, wider, own, clock, tables, holdback, batch, send, payload, outgoing, verdicts,
        delivery,
    )
}
