// 01, tick 5: "If a ticket is to be sent, the frame carries this stamp".
ghost use Rattle.timestamp.specs.Views.{stamp_of};
ghost use Rattle.frame.specs.Lay.{Room};
ghost use Rattle.node.specs.States.{Sent};

use frame::lay;
use setup::Setup;
use timestamp::Timestamp;

// Lays the frame down in the outgoing buffer, if one is to be sent. Answers its length, 0 if none.
pub fn send_frame(
    setup: Setup,
    own: u32,
    stamp: Timestamp,
    send: bool,
    payload: &[u8],
    outgoing: &mut [u8],
) -> usize
    requires { Room setup.epsilon own (stamp_of stamp) payload.now outgoing.old }
    ensures { Sent setup.epsilon own (stamp_of stamp) send payload.now outgoing.old result outgoing.new }
{
    if !send {
        return 0;
    }
    lay(
        setup.epsilon as usize,
        own as usize,
        stamp,
        payload,
        outgoing,
    )
}
