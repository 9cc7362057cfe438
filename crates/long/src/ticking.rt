// 02, 2.9: one tick of the engine.
ghost use Rattle.std.specs.Prelude.{◌≡◌};
ghost use Rattle.model.specs.Question.{first_no};
ghost use Rattle.model.specs.Long.{long_call_questions, long_tick};
ghost use Rattle.node.specs.Views.{call_input};
ghost use Rattle.node.specs.Answers.{call_output};

use crate::attending::attend;
use crate::call::check_call;
use crate::opening::open_stamp;
use crate::sending::send_frame;
use node::Answer;
use setup::Setup;
use timestamp::Timestamp;

// An accepted call.
fn accept(
    setup: Setup,
    own: u32,
    clock: usize,
    tables: Timestamp,
    holdback: &mut [u8],
    batch: &[u8],
    send: bool,
    payload: &[u8],
    outgoing: &mut [u8],
    verdicts: &mut [u8],
    delivery: &mut [u8],
) -> Answer
    requires { first_no (long_call_questions (call_input setup own clock tables holdback.old batch.now send payload.now
        outgoing.old verdicts.old delivery.old)) ≡ 0 }
    ensures { call_output result holdback.new outgoing.new verdicts.new delivery.new
        ≡ long_tick (call_input setup own clock tables holdback.old batch.now send payload.now
        outgoing.old verdicts.old delivery.old) }
{
    let opening = open_stamp(setup, clock, tables);
    let opened = opening.stamp;
    let attended = attend(
        setup,
        clock,
        opening.least,
        opened,
        batch,
        holdback,
        verdicts,
        delivery,
    );
    let absorbed = attended.stamp;
    let stamp = absorbed.count_own(setup.epsilon as usize, clock);
    let sent = send_frame(setup, own, stamp, send, payload, outgoing);
    Answer {
        number: 0,
        tables: stamp,
        repair: opening.repair + attended.repair,
        taken: attended.taken,
        delivered: attended.delivered,
        sent,
    }
}

// The tick. Any arguments get an answer; a refused call keeps its tables and all buffers. The setup's modulus is not looked at.
pub fn tick(
    setup: Setup,
    own: u32,
    clock: usize,
    tables: Timestamp,
    holdback: &mut [u8],
    batch: &[u8],
    send: bool,
    payload: &[u8],
    outgoing: &mut [u8],
    verdicts: &mut [u8],
    delivery: &mut [u8],
) -> Answer
    ensures { call_output result holdback.new outgoing.new verdicts.new delivery.new
        ≡ long_tick (call_input setup own clock tables holdback.old batch.now send payload.now
        outgoing.old verdicts.old delivery.old) }
{
    let number = check_call(
        setup, own, clock, holdback, batch, payload, outgoing, verdicts, delivery,
    );
    if number != 0 {
        return Answer {
            number,
            tables,
            repair: 0,
            taken: 0,
            delivered: 0,
            sent: 0,
        };
    }
    accept(
        setup, own, clock, tables, holdback, batch, send, payload, outgoing, verdicts, delivery,
    )
}
