// What is due: a prefix of a sound queue.
ghost use Rattle.std.specs.Prelude.{◌≡◌, ◌-◌, ◌*◌, ◌<◌, ◌≤◌, true, not, ◌++◌, length};
ghost use Rattle.laws.specs.Lists.{select, overlay};
ghost use Rattle.model.specs.Setup.{in_limits};
ghost use Rattle.model.specs.Frame.{two_at};
ghost use Rattle.model.specs.Holdback.{held, sound_holdback, encode_frames, encode_holdback};
ghost use Rattle.model.specs.Tick.{due_now, holdback_size};
ghost use Rattle.setup.specs.Views.{setup_of};
ghost use Rattle.holdback.specs.Queue.{frame_start, Spans, Stands};
ghost use Rattle.holdback.specs.Starts.{used_entries, frames_below};
ghost use Rattle.holdback.specs.Overdue.{SoundBy, Tabled};

use crate::change::{Place, append_prefix, cut_prefix};
use crate::starts::START_UNIT;
use setup::Setup;

// The frames at the front that are due before v, or whose sums have places below k: those before where a search for place k starts.
pub fn front_below(setup: Setup, clock: usize, k: usize, buf: &[u8], starts: &[u32]) -> Place
    requires setup_value { (in_limits (setup_of setup) ≡ true) × (k < used_entries (setup_of setup)) }
    requires sound_by { SoundBy (setup_of setup) clock buf.now × Tabled (setup_of setup) clock buf.now starts.now }
    ensures { Stands setup.epsilon buf.now (frames_below (setup_of setup) clock buf.now k) result.index result.at }
{
    let start = starts[k] as usize;
    Place {
        index: start / START_UNIT,
        at: start % START_UNIT,
    }
}

// 01, tick 6: every frame that is due at v "is handed out, in order, and leaves the shelf", behind those that are handed out already:
// `given` is their number, and where they end. Those are due at v whose sums have the first place. Answers how many are due at v.
pub fn cut_due(
    setup: Setup,
    clock: usize,
    buf: &mut [u8],
    count: usize,
    end: usize,
    starts: &[u32],
    delivery: &mut [u8],
    given: Place,
) -> usize
    requires setup_value { (in_limits (setup_of setup) ≡ true) × (clock < setup.modulus) }
    requires buf_value { (sound_holdback (setup_of setup) clock setup.modulus buf.old ≡ true) × ((2 ≤ length buf.old) × (count ≡ two_at buf.old 0)) }
    requires tabled { Tabled (setup_of setup) clock buf.old starts.now }
    requires end_value { (end ≡ frame_start setup.epsilon buf.old count) × (holdback_size (setup_of setup) ≤ length delivery.old) }
    requires spans { Spans setup.epsilon delivery.old given.index given.at given.index given.at × (given.index ≤ setup.n * (2 * setup.epsilon - 2)) }
    ensures value { result ≡ length (select (due_now (setup_of setup) clock) (held setup.epsilon buf.old)) }
    ensures buf_after { buf.new
        ≡ encode_holdback (length buf.old) (select (λ f. not (due_now (setup_of setup) clock f)) (held setup.epsilon buf.old)) }
    ensures delivery_after { delivery.new
        ≡ overlay (encode_frames (held setup.epsilon delivery.old ++ select (due_now (setup_of setup) clock) (held setup.epsilon buf.old))) delivery.old }
{
    let epsilon = setup.epsilon as usize;
    let due = front_below(setup, clock, 1, buf, starts);
    append_prefix(epsilon, buf, count, end, due, delivery, given);
    cut_prefix(epsilon, buf, count, end, due);
    due.index
}
