// Both pairs with V as a reading near v, which reads B: the limits of a clock, the due clock and the number of counts compared of a sum.
ghost use Rattle.std.specs.Prelude.{◌≡◌, ◌*◌, ◌≤◌, ◌<◌, ◌^◌};
ghost use Rattle.model.specs.Schedule.{change_near, limits_at, own_limits, tables_half, due_along, compared_along};
ghost use Rattle.model.specs.Schedule as model;
ghost use Rattle.model.specs.WiderCalls.{pairs_of};
ghost use Rattle.setup.specs.Views.{setup_of};
ghost use Rattle.pairs.specs.Views.{wider_of, schedule_of, pair_of, Near};
ghost use Rattle.lemmas.proofs.WiderCall.{BothPairs};

use crate::both::{Wider, wider_setup};
use setup::{Setup, sum_due};
use timestamp::{ahead, past};

// 02: "At an agreed clock V the yard goes from ε, δ to limits ε' ≥ ε, δ' ≥ δ".
#[derive(Clone, Copy)]
pub struct Pairs {
    pub before: Setup,
    pub after: Setup,
    // 02: V, read near v
    pub change: usize,
}

// V as a reading near v. 02: "Unmarked, V lies (V − v) modulo B ahead, 0 meaning B; marked, (v − V) modulo B behind".
fn change_near(modulus: usize, clock: usize, wider: Wider) -> usize
    requires { (modulus ≤ 65535) × ((clock < modulus) × (wider.change < modulus)) }
    ensures { result ≡ change_near modulus clock (wider_of wider) }
{
    let change = wider.change as usize;
    if wider.marked == 1 {
        return modulus - ahead(modulus, change, clock);
    }
    let far = ahead(modulus, clock, change);
    if far == 0 {
        return 2 * modulus;
    }
    modulus + far
}

// Both pairs of a setup that has passed 1 and 19, for a tick at `clock`.
pub fn pairs_near(setup: Setup, wider: Wider, clock: usize) -> Pairs
    requires { BothPairs (setup_of setup) (wider_of wider) × (clock < setup.modulus) }
    ensures { Near result (setup_of setup) (wider_of wider) clock }
{
    let after = wider_setup(setup, wider);
    let change = change_near(setup.modulus as usize, clock, wider);
    Pairs {
        before: setup,
        after,
        change,
    }
}

// Both pairs, wherever V stands: which widths there are. Reader and writer alone have no clock.
pub fn pairs_of(setup: Setup, wider: Wider) -> Pairs
    ensures { schedule_of result ≡ pairs_of (setup_of setup) (wider_of wider) }
{
    let after = wider_setup(setup, wider);
    Pairs {
        before: setup,
        after,
        change: wider.change as usize,
    }
}

// The limits of a clock, as a reading.
pub fn limits_at(p: Pairs, reading: usize) -> Setup
    ensures { setup_of result ≡ limits_at (schedule_of p) reading }
{
    if reading < p.change {
        return p.before;
    }
    p.after
}

// 02: "A tick uses the limits of its own clock", v, which reads B.
pub fn own_limits(p: Pairs) -> Setup
    ensures { setup_of result ≡ own_limits (schedule_of p) }
{
    limits_at(p, p.before.modulus as usize)
}

// 02: "Tables are narrow if their r is before V": half the width of tables whose r lies `step` before v.
pub fn tables_half(p: Pairs, step: usize) -> usize
    ensures { result ≡ tables_half (schedule_of p) step }
{
    let limits = limits_at(p, past(p.before.modulus as usize, step));
    limits.epsilon as usize
}

// 02: a frame's "sum + δ + ε … lies before V".
fn old_due(p: Pairs, sum: usize) -> bool
    requires { sum ≤ 2 ^ 63 }
    ensures { result ≡ model.old_due (setup_of p.before) p.change sum }
{
    sum_due(p.before, sum) < p.change
}

// 02: "A frame is due at sum + δ + ε if that lies before V, else at sum + δ' + ε'".
pub fn due_along(p: Pairs, sum: usize) -> usize
    requires { sum ≤ 2 ^ 63 }
    ensures { result ≡ due_along (schedule_of p) sum }
{
    if old_due(p, sum) {
        return sum_due(p.before, sum);
    }
    sum_due(p.after, sum)
}

// 02: "Frames due before V compare ε counts, all others ε' counts".
pub fn compared_along(p: Pairs, sum: usize) -> usize
    requires { sum ≤ 2 ^ 63 }
    ensures { result ≡ compared_along (schedule_of p) sum }
{
    if old_due(p, sum) {
        return p.before.epsilon as usize;
    }
    p.after.epsilon as usize
}

// 02: "both widths are read always": the pair whose 2ε `count` counts are. Any number but the wider one goes with the old pair.
pub fn side_of(p: Pairs, count: usize) -> Setup
    ensures { setup_of result ≡ pair_of (schedule_of p) count }
{
    if count == 2 * p.after.epsilon as usize {
        return p.after;
    }
    p.before
}
