// 02, 2.9: the setup of an engine, which "has no B", and the lengths that follow from it.
ghost use Rattle.std.specs.Prelude.{◌≡◌, ◌&&◌, ◌≤◌, ◌+◌, ◌*◌};
ghost use Rattle.model.specs.Setup.{is_member};
ghost use Rattle.model.specs.Long.{long_limits, longest_long, long_most};
ghost use Rattle.setup.specs.Views.{setup_of};

use setup::{Setup, in_limits_but_modulus};

// 02: "A clock from 2^63 up gets 2, such an r 11".
pub const BOUND: usize = 9223372036854775808;

// 02: "up to 64 held messages".
pub const MOST: usize = 64;

// Check 1, with the own number: it is "below n". What stands in the place of B is not looked at.
pub fn valid_for(setup: Setup, own: u32) -> bool
    ensures { result ≡ (long_limits (setup_of setup) && is_member (setup_of setup) own) }
{
    if !in_limits_but_modulus(setup) {
        return false;
    }
    own < setup.n
}

// 02: "lengths follow": the longest frame has six bytes more than a station's.
pub fn longest_frame(epsilon: usize) -> usize
    requires { epsilon ≤ 16 }
    ensures { result ≡ longest_long epsilon }
{
    45 + 2 * epsilon
}

// 02: "its shelf is for 64": the length of a hold-back queue's buffer.
pub fn holdback_length(epsilon: usize) -> usize
    requires { epsilon ≤ 16 }
    ensures { result ≡ 2 + longest_long epsilon * long_most }
{
    2 + longest_frame(epsilon) * MOST
}
