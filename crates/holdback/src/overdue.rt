// 02, 2.2: "Frames whose due clock lies before v go out before the bundle is judged". They are the front of a sound queue, and the
// table of starts says where the others begin.
ghost use Rattle.std.specs.Prelude.{◌≡◌, ◌<◌, ◌≤◌, true, length, drop};
ghost use Rattle.model.specs.Setup.{in_limits};
ghost use Rattle.model.specs.Frame.{two_at};
ghost use Rattle.model.specs.Holdback.{held};
ghost use Rattle.setup.specs.Views.{setup_of};
ghost use Rattle.holdback.specs.Queue.{frame_start};
ghost use Rattle.holdback.specs.Seen.{seen_table};
ghost use Rattle.holdback.specs.Overdue.{SoundBy, OverdueFront, Tabled, Left, Released};

use crate::change::{Place, append_prefix, cut_front};
use crate::compare::rank_of;
use crate::due::front_below;
use crate::origins::clear_mark;
use crate::starts::{START_UNIT, lower_starts};
use crate::timing::used_entries;
use setup::Setup;

// Takes the marks of the first `index` frames away.
fn unmark(setup: Setup, clock: usize, buf: &[u8], index: usize, seen: &mut [u64])
    requires setup_value { (in_limits (setup_of setup) ≡ true) × (clock < setup.modulus) }
    requires sound_by { SoundBy (setup_of setup) clock buf.now × ((2 ≤ length buf.now) × (index ≤ two_at buf.now 0)) }
    requires seen_value { seen.old ≡ seen_table (setup_of setup) clock (held setup.epsilon buf.now) }
    ensures { seen.new ≡ seen_table (setup_of setup) clock (drop index (held setup.epsilon buf.now)) }
{
    let epsilon = setup.epsilon as usize;
    let mut i = 0;
    let mut at = 2;
    while i < index {
        let next = at + frame::frame_end(epsilon, &buf[at..]);
        clear_mark(setup, rank_of(setup, clock, &buf[at..next]), seen);
        at = next;
        i += 1;
    }
}

// The frames that are due before v leave the queue and its tables.
fn cut_overdue(
    setup: Setup,
    clock: usize,
    buf: &mut [u8],
    count: usize,
    end: usize,
    overdue: Place,
    seen: &mut [u64],
    starts: &mut [u32],
)
    requires setup_value { (in_limits (setup_of setup) ≡ true) × (clock < setup.modulus) }
    requires sound_by { SoundBy (setup_of setup) clock buf.old × ((2 ≤ length buf.old) × (count ≡ two_at buf.old 0)) }
    requires end_value { (end ≡ frame_start setup.epsilon buf.old count) × OverdueFront (setup_of setup) clock buf.old overdue.index overdue.at }
    requires seen_value { (seen.old ≡ seen_table (setup_of setup) clock (held setup.epsilon buf.old)) × Tabled (setup_of setup) clock buf.old starts.old }
    ensures { Left (setup_of setup) clock buf.old overdue.index buf.new seen.new starts.new }
{
    unmark(setup, clock, buf, overdue.index, seen);
    let to = used_entries(setup);
    let amount = overdue.index * START_UNIT + (overdue.at - 2);
    lower_starts(starts, to, amount as u32);
    cut_front(setup.epsilon as usize, buf, count, end, overdue);
}

// Hands out the frames that are due before v: their number, and where they end in the delivery.
pub fn release(
    setup: Setup,
    clock: usize,
    buf: &mut [u8],
    count: usize,
    end: usize,
    seen: &mut [u64],
    starts: &mut [u32],
    delivery: &mut [u8],
) -> Place
    requires setup_value { (in_limits (setup_of setup) ≡ true) × (clock < setup.modulus) }
    requires sound_by { SoundBy (setup_of setup) clock buf.old × ((2 ≤ length buf.old) × (count ≡ two_at buf.old 0)) }
    requires end_value { (end ≡ frame_start setup.epsilon buf.old count) × (length buf.old ≤ length delivery.old) }
    requires seen_value { (seen.old ≡ seen_table (setup_of setup) clock (held setup.epsilon buf.old)) × Tabled (setup_of setup) clock buf.old starts.old }
    ensures { Released (setup_of setup) clock buf.old delivery.old result.index result.at
        buf.new seen.new starts.new delivery.new }
{
    let overdue = front_below(setup, clock, 0, buf, starts);
    splice::put_u16(delivery, 0, 0);
    append_prefix(
        setup.epsilon as usize,
        buf,
        count,
        end,
        overdue,
        delivery,
        Place { index: 0, at: 2 },
    );
    if overdue.index == 0 {
        return overdue;
    }
    cut_overdue(setup, clock, buf, count, end, overdue, seen, starts);
    overdue
}
