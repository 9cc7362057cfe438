// 01: the setup, "a parameter of each call", and the lengths that follow from it. The own number is not in it: that is one
// node's, and these are the group's.
ghost use Rattle.std.specs.Prelude.{◌≡◌, ◌&&◌, ◌+◌, ◌≤◌, ◌<◌};
ghost use Rattle.model.specs.Setup.{in_limits, is_member, longest_frame, depth, holdback_length};
ghost use Rattle.model.specs.Order.{sum_due};
ghost use Rattle.model.specs.Long.{long_bound, long_limits};
ghost use Rattle.setup.specs.Views.{setup_of};

// 01: "A ticket is 0 to 32 bytes"; here the payload.
pub const LONGEST_PAYLOAD: usize = 32;

// 01: "the verdict buffer 255".
pub const VERDICT_LENGTH: usize = 255;

#[derive(Clone, Copy)]
pub struct Setup {
    // 01: how many stations the yard has
    pub n: u32,
    // 01: ε, the drift limit
    pub epsilon: u32,
    // 01: δ, the delay limit
    pub delta: u32,
    // 01: B
    pub modulus: u32,
}

// 01: "n 1..16, ε 1..16, δ 0..64", the limits of a setup but for B; of an engine's setup (02, 2.9) all there are.
pub fn in_limits_but_modulus(setup: Setup) -> bool
    ensures { result ≡ long_limits (setup_of setup) }
{
    if setup.n < 1 {
        return false;
    }
    if 16 < setup.n {
        return false;
    }
    if setup.epsilon < 1 {
        return false;
    }
    if 16 < setup.epsilon {
        return false;
    }
    setup.delta <= 64
}

// 01, check 1: "Is the setup in its limits?", but for the own number. Any numbers get an answer.
pub fn in_limits(setup: Setup) -> bool
    ensures { result ≡ in_limits (setup_of setup) }
{
    if !in_limits_but_modulus(setup) {
        return false;
    }
    if setup.modulus < 6 * setup.epsilon + setup.delta + 1 {
        return false;
    }
    setup.modulus <= 65535
}

// 01, check 1, with the own number: it is "below n".
pub fn valid_for(setup: Setup, own: u32) -> bool
    ensures { result ≡ (in_limits (setup_of setup) && is_member (setup_of setup) own) }
{
    if !in_limits(setup) {
        return false;
    }
    own < setup.n
}

// 01: "Longest: 39 + 2ε bytes".
pub fn longest_frame(epsilon: usize) -> usize
    requires { epsilon ≤ 16 }
    ensures { result ≡ longest_frame epsilon }
{
    39 + 2 * epsilon
}

// 01: "n(δ + 3ε) frames".
pub fn depth(n: usize, epsilon: usize, delta: usize) -> usize
    requires { (n ≤ 16) × ((epsilon ≤ 16) × (delta ≤ 64)) }
    ensures { result ≡ depth n epsilon delta }
{
    n * (delta + 3 * epsilon)
}

// 01: a shelf's "length is exactly 2 + (39 + 2ε) × n × (δ + 3ε)".
pub fn holdback_length(n: usize, epsilon: usize, delta: usize) -> usize
    requires { (n ≤ 16) × ((epsilon ≤ 16) × (delta ≤ 64)) }
    ensures { result ≡ holdback_length n epsilon delta }
{
    2 + longest_frame(epsilon) * depth(n, epsilon, delta)
}

// 01: "sum + δ + ε (its due clock)", of a sum. An engine's (02, 2.9) is the largest: a clock below 2^63 and a c below ε.
pub fn sum_due(setup: Setup, sum: usize) -> usize
    requires { sum < long_bound + 16 }
    ensures { result ≡ sum_due (setup_of setup) sum }
{
    sum + setup.delta as usize + setup.epsilon as usize
}
