// A call that has nothing to do: no frame is on the queue, and the batch has no entry. No tables are made for it.
ghost use Rattle.std.specs.Prelude.{◌≡◌, [], ◌≤◌, length};
ghost use Rattle.laws.specs.Lists.{overlay};
ghost use Rattle.model.specs.Holdback.{encode_frames, encode_holdback};
ghost use Rattle.node.specs.Answers.{passed_over};
ghost use Rattle.node.specs.States.{is_idle};

use crate::attending::Attended;
use timestamp::Timestamp;

// Both counts are 0.
pub fn is_idle(holdback: &[u8], batch: &[u8]) -> bool
    ensures { result ≡ is_idle batch.now holdback.now }
{
    if splice::two_at(holdback, 0) != 0 {
        return false;
    }
    batch::count_of(batch) == 0
}

// Nothing is taken and nothing is handed out: the stamp stays, and so does a queue of no frames, with zeros behind its count.
pub fn pass_over(stamp: Timestamp, holdback: &mut [u8], delivery: &mut [u8]) -> Attended
    requires { (2 ≤ length holdback.old) × (2 ≤ length delivery.old) }
    ensures value { result ≡ passed_over stamp }
    ensures holdback_after { (holdback.new ≡ encode_holdback (length holdback.old) [])
        × (delivery.new ≡ overlay (encode_frames []) delivery.old) }
{
    splice::put_u16(delivery, 0, 0);
    holdback::empty(holdback);
    Attended {
        stamp,
        repair: 0,
        taken: 0,
        delivered: 0,
    }
}
