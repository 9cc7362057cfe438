// 01, "Of each frame, in order": questions 10 to 16 of an engine; 02, 2.9: and 18.
ghost use Rattle.std.specs.Prelude.{◌≡◌};
ghost use Rattle.model.specs.Frame.{two_at};
ghost use Rattle.model.specs.Question.{first_no};
ghost use Rattle.model.specs.Long.{long_formed, long_held, long_questions};
ghost use Rattle.setup.specs.Views.{setup_of};
ghost use Rattle.longqueue.specs.Queue.{Standing};
ghost use Rattle.long.specs.States.{Timed};

use longframe::{MOST, check, r_of, six_on};
use longqueue::repeats;
use node::check_time;
use setup::{REPEAT, Setup, TOO_MANY};

// One frame judged: the number of the first no, or 0. Its r is the number that it is, and so is v. The queue has `count` frames.
// 02, 2.9: "Number 18 when a 65th message would be held, after 16".
pub fn judge(setup: Setup, clock: usize, holdback: &[u8], count: usize, frame: &[u8]) -> u8
    requires timed { Timed (setup_of setup) clock }
    requires count_value { (count ≡ two_at holdback.now 0) × Standing setup.epsilon (long_formed setup.epsilon) holdback.now 2 count }
    ensures { result ≡ first_no (long_questions (setup_of setup) clock (long_held setup.epsilon holdback.now) frame.now) }
{
    let form = check(setup, frame);
    if form != 0 {
        return form;
    }
    let time = check_time(setup, clock, false, six_on(frame), r_of(frame));
    if time != 0 {
        return time;
    }
    let repeated = repeats(setup.epsilon as usize, holdback, count, frame);
    if repeated {
        return REPEAT;
    }
    if MOST <= count {
        return TOO_MANY;
    }
    0
}
