// 01, "Of the call, in order": questions 1 to 6, with both pairs of limits: 1, 19, then 2 to 6.
ghost use Rattle.std.specs.Prelude.{◌≡◌, Bool};
ghost use Rattle.model.specs.Question.{first_no};
ghost use Rattle.model.specs.Wider.{wider_call_questions};
ghost use Rattle.timestamp.specs.declared.stamp.Timestamp as stamps;
ghost use Rattle.node.specs.Views.{call_input};
ghost use Rattle.pairs.specs.Views.{wider_of};

use node::check_sized;
use pairs::{Wider, check_both, wider_setup};
use setup::Setup;

// The number of the first no, or 0. 02: "shelves and buffers have the new sizes from a station's first call with both pairs". Neither the tables
// nor whether to send is asked about.
pub fn check_call(
    setup: Setup,
    wider: Wider,
    own: u32,
    clock: usize,
    holdback: &[u8],
    batch: &[u8],
    payload: &[u8],
    outgoing: &[u8],
    verdicts: &[u8],
    delivery: &[u8],
) -> u8
    ensures { (tables : stamps.Timestamp) (send : Bool) → result ≡ first_no (wider_call_questions (wider_of wider) (call_input setup own clock tables
        holdback.now batch.now send payload.now outgoing.now
        verdicts.now delivery.now)) }
{
    let number = check_both(setup, wider, own);
    if number != 0 {
        return number;
    }
    let widest = wider_setup(setup, wider);
    check_sized(
        widest, clock, holdback, batch, payload, outgoing, verdicts, delivery,
    )
}
