// 01: the stamp, its soundness, the steps of one tick that change it, and reading a clock near v.
ghost use Rattle.std.specs.Prelude.{◌≡◌, cond, ℕ, ◌+◌, ◌-◌, ◌*◌, ◌%◌, ◌≤◌, ◌<◌, ◌^◌, max, length, take, drop, get_or, leb};
ghost use Rattle.laws.specs.Lists.{tab, padded};
ghost use Rattle.model.specs.Setup.{widest};
ghost use Rattle.model.specs.Timestamp.{at_most, sound_timestamp, sound_beside, sound_tables, trimmed, widened};
ghost use Rattle.model.specs.Timestamp as model;
ghost use Rattle.timestamp.specs.Views.{stamp_of, of_counts, within_ceilings, raised_at};

// 01: the stamp.
#[derive(Clone, Copy)]
pub struct Timestamp {
    // "the clock at the event"
    pub r: usize,
    // "how far the largest known clock lies ahead of r"
    pub c: usize,
    // 01: the counts, from offset −ε up; places past the 2ε counts are ignored
    pub kn: [u8; Timestamp::WIDTH],
}

impl Timestamp {
    // The counts of the widest timestamp: 2ε at ε 16.
    pub const WIDTH: usize = 32;

    // 01: "Fresh tables at a clock have that r, c 0, count 1 at offset 0, otherwise 0".
    pub fn fresh(epsilon: usize, clock: usize) -> Self
        requires { (1 ≤ epsilon) × (epsilon ≤ 16) }
        ensures { stamp_of result ≡ widened (model.fresh epsilon clock) }
    {
        let mut kn = [0u8; Timestamp::WIDTH];
        kn[epsilon] = 1;
        Timestamp { r: clock, c: 0, kn }
    }

    // 01, tick 1: "Unsound tables are replaced by c 0 and no counts at all".
    pub fn replaced(clock: usize) -> Self
        ensures { (epsilon : ℕ) → epsilon ≤ 16 → stamp_of result ≡ widened (model.replaced epsilon clock) }
    {
        let kn = [0u8; Timestamp::WIDTH];
        Timestamp { r: clock, c: 0, kn }
    }

    // 01, tick 2; 02, 2.2: "c drops by the step and counts move down by it".
    pub fn step(self, epsilon: usize, k: usize, clock: usize) -> Self
        requires { (k ≤ epsilon) × (epsilon ≤ 16) }
        ensures { stamp_of result ≡ widened (model.step k clock (trimmed epsilon (stamp_of self))) }
    {
        let kn = counts_of(&self.kn, k, 2 * epsilon - k);
        Timestamp {
            r: clock,
            c: self.c.saturating_sub(k),
            kn,
        }
    }

    // 01, tick 3: "c and each count become the larger of own and frame's, both placed relative to v", which reads B. A reading past v lays
    // the frame's 2ε counts further up, one before v further down; where none of them meets an own one, the own counts stay. r stays too.
    pub fn absorb(
        self,
        epsilon: usize,
        modulus: usize,
        reading: usize,
        c: usize,
        counts: &[u8],
    ) -> Self
        requires epsilon_bound { (epsilon ≤ 16) × ((modulus ≤ 2 ^ 63) × ((reading ≤ 2 ^ 63) × (c ≤ 2 ^ 16))) }
        requires self_value { (stamp_of self ≡ widened (trimmed epsilon (stamp_of self))) × (length counts.now ≡ 2 * epsilon) }
        ensures { stamp_of result
            ≡ widened (model.absorb epsilon modulus (trimmed epsilon (stamp_of self)) reading (of_counts c counts.now)) }
    {
        let up = reading.saturating_sub(modulus);
        let down = modulus.saturating_sub(reading);
        let count = (2 * epsilon).saturating_sub(up + down);
        let mut kn = self.kn;
        raise(&mut kn, up, counts, down, count);
        Timestamp {
            r: self.r,
            c: larger_lead(self.c, reading + c, modulus),
            kn,
        }
    }

    // 01, tick 4: "The count at offset 0 rises by one; r is v".
    pub fn count_own(self, epsilon: usize, clock: usize) -> Self
        requires le_epsilon { (1 ≤ epsilon) × ((epsilon ≤ 16) × (get_or self.kn epsilon 0 ≤ 254)) }
        requires self_value { stamp_of self ≡ widened (trimmed epsilon (stamp_of self)) }
        ensures { stamp_of result ≡ widened (model.count_own epsilon clock (trimmed epsilon (stamp_of self))) }
    {
        let mut kn = self.kn;
        kn[epsilon] += 1;
        Timestamp {
            r: clock,
            c: self.c,
            kn,
        }
    }

    // 01: "A stamp is sound if c ≤ ε − 1, each count ≤ n, the count at offset c is at least 1, and all counts above offset c are 0".
    pub fn is_sound(self, n: usize, epsilon: usize) -> bool
        requires { (n ≤ 16) × ((1 ≤ epsilon) × (epsilon ≤ 16)) }
        ensures { result ≡ sound_timestamp n epsilon (trimmed epsilon (stamp_of self)) }
    {
        sound_counts(&self.kn[..2 * epsilon], self.c, n, epsilon)
    }

    // 01: "sound for a new clock v if the stamp is sound, r is below B and one before v modulo B, and counts at offsets 1
    // and up are at most n − 1", beside the test of r.
    pub fn sound_beside(self, n: usize, epsilon: usize, clock: bool) -> bool
        requires { (1 ≤ n) × ((n ≤ 16) × ((1 ≤ epsilon) × (epsilon ≤ 16))) }
        ensures { result ≡ sound_beside clock n epsilon (trimmed epsilon (stamp_of self)) }
    {
        self.is_sound(n, epsilon)
            && clock
            && counts_at_most(&self.kn, epsilon + 1, 2 * epsilon, n - 1)
    }

    // All of it. 02, 2.2: r lies 1 to ε before v.
    pub fn is_sound_for(self, n: usize, epsilon: usize, modulus: usize, clock: usize) -> bool
        requires le_n { (1 ≤ n) × ((n ≤ 16) × ((1 ≤ epsilon) × (epsilon ≤ 16))) }
        requires modulus_bound { (modulus ≤ 65535) × (clock < modulus) }
        ensures { result ≡ sound_tables n epsilon modulus clock (trimmed epsilon (stamp_of self)) }
    {
        let timely = clock_sound(epsilon, modulus, clock, self.r);
        self.sound_beside(n, epsilon, timely)
    }
}

// The soundness of a stamp with that c and those 2ε counts.
pub fn sound_counts(kn: &[u8], c: usize, n: usize, epsilon: usize) -> bool
    requires { (n ≤ 16) × ((1 ≤ epsilon) × ((epsilon ≤ 16) × (length kn.now ≡ 2 * epsilon))) }
    ensures { result ≡ sound_timestamp n epsilon (of_counts c kn.now) }
{
    c < epsilon && 1 <= kn[epsilon + c] && within_ceilings(kn, epsilon + c, n)
}

// 01: "each count ≤ n" and "all counts above" the place `top` "are 0", in one pass. A place is compared as a byte, so that the
// compiler can take 16 counts at a time.
fn within_ceilings(kn: &[u8], top: usize, n: usize) -> bool
    requires { (length kn.now ≤ 32) × ((top < length kn.now) × (n ≤ 16)) }
    ensures { result ≡ within_ceilings n top kn.now }
{
    let most = n as u8;
    let last = top as u8;
    let mut fine = true;
    for (index, count) in kn.iter().enumerate() {
        fine &= *count <= ceiling_at(index as u8, last, most);
    }
    fine
}

// The most that the count at a place may be, a byte as the count is: `n` up to the place `top`, 0 above it.
fn ceiling_at(index: u8, top: u8, n: u8) -> u8
    ensures { result ≡ cond (leb index top) n 0 }
{
    if index <= top { n } else { 0 }
}

// Every count from one place up to, not including, another is at most the bound.
pub fn counts_at_most(kn: &[u8], from: usize, to: usize, bound: usize) -> bool
    requires { to ≤ length kn.now }
    ensures { result ≡ at_most bound (drop from (take to kn.now)) }
{
    // the largest of them, since `all` asks one after the other and takes half as long again
    let mut most = 0u8;
    for count in &kn[from.min(to)..to] {
        most = most.max(*count);
    }
    usize::from(most) <= bound
}

// The counts that stand in a slice from a place on, by value, then zeros.
pub fn counts_of(s: &[u8], from: usize, count: usize) -> [u8; Timestamp::WIDTH]
    requires { (from + count ≤ length s.now) × (count ≤ 32) }
    ensures { result ≡ padded widest (take count (drop from s.now)) }
{
    let mut kn = [0u8; Timestamp::WIDTH];
    kn[..count].copy_from_slice(&s[from..from + count]);
    kn
}

// How far `a` lies past `b`, 0 if it does not: std's `saturating_sub` under the name by which the crates above ask for it.
pub fn past(a: usize, b: usize) -> usize
    ensures { result ≡ a - b }
{
    a.saturating_sub(b)
}

// The larger of a lead and of how far a sum lies past B.
pub fn larger_lead(lead: usize, sum: usize, modulus: usize) -> usize
    ensures { result ≡ max lead (sum - modulus) }
{
    lead.max(sum.saturating_sub(modulus))
}

// Lays the `count` counts of `other` that start at the place `from` over the own ones that start at the place `to`, and keeps
// the larger of each two. The rest of the own ones stay.
pub fn raise(own: &mut [u8], to: usize, other: &[u8], from: usize, count: usize)
    requires { (length own.old ≡ widest) × ((count ≤ widest - to) × (count ≤ length other.now - from)) }
    ensures { own.new ≡ tab widest (raised_at to own.old (take count (drop from other.now))) }
{
    // by index: a loop over both parts at once takes a fifth longer
    for i in 0..count {
        own[to + i] = own[to + i].max(other[from + i]);
    }
}

// 01: "u is (r − v) modulo B".
pub fn ahead(modulus: usize, clock: usize, r: usize) -> usize
    requires { (modulus ≤ 65535) × ((clock < modulus) × (r < modulus)) }
    ensures { result ≡ model.ahead modulus clock r }
{
    if clock <= r {
        r - clock
    } else {
        r + (modulus - clock)
    }
}

// 02, 2.2: the step from the clock r of the tables to v: (v − r) modulo B.
pub fn clock_step(modulus: usize, r: usize, clock: usize) -> usize
    requires { (modulus ≤ 65535) × ((r < modulus) × (clock < modulus)) }
    ensures { result ≡ model.clock_step modulus r clock }
{
    ahead(modulus, r, clock)
}

// 01: "r is below B and one before v modulo B". 02, 2.2: r lies 1 to ε before v. 02, 2.6: an observer's last clock is judged
// "like the r of tables".
pub fn clock_sound(epsilon: usize, modulus: usize, clock: usize, r: usize) -> bool
    requires { (modulus ≤ 65535) × (clock < modulus) }
    ensures { result ≡ model.sound_clock epsilon modulus clock r }
{
    r < modulus && (1..=epsilon).contains(&clock_step(modulus, r, clock))
}

// A number below 2B modulo B, by a comparison: `%` takes twice as long.
fn turned(x: usize, modulus: usize) -> usize
    requires { x < 2 * modulus }
    ensures { result ≡ x % modulus }
{
    if x < modulus { x } else { x - modulus }
}

// 01: "If u ≤ ε − 1, r is u ahead. Otherwise it is B − u behind." v itself reads B. So a reading lies ε and so much more as r lies past the
// clock that reads ε, which is the same for all r.
pub fn near(epsilon: usize, modulus: usize, clock: usize, r: usize) -> usize
    requires le_epsilon { (1 ≤ epsilon) × (epsilon < modulus) }
    requires modulus_bound { (modulus ≤ 65535) × ((clock < modulus) × (r < modulus)) }
    ensures { result ≡ model.near epsilon modulus clock r }
{
    let least = turned(clock + epsilon, modulus);
    ahead(modulus, least, r) + epsilon
}
