// 01: "A verdict is either taken, with its place on the shelf, or refused, with the number".
ghost use Rattle.std.specs.Prelude.{◌≡◌};
ghost use Rattle.model.specs.Judge.{verdict_number};
ghost use Rattle.node.specs.Views.{verdict_of};

use holdback::Place;

// Where a taken frame goes.
#[derive(Clone, Copy)]
pub struct Placed {
    // its place in the queue (01: the shelf), and where that stands
    pub place: Place,
    // the reading of its r near v
    pub reading: usize,
}

#[derive(Drop)]
pub enum Verdict {
    // its place, with the reading by which it was found
    Taken(Placed),
    // the number of the first no
    Refused(u8),
}

// 01: "the verdict buffer gets 0 or the number".
pub fn number_of(verdict: Verdict) -> u8
    ensures { result ≡ verdict_number (verdict_of verdict) }
{
    match verdict {
        Verdict::Taken(_) => 0,
        Verdict::Refused(number) => number,
    }
}
