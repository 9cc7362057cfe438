// What a call with both pairs is given beside the old setup, and its questions 1 and 19. Any numbers get an answer.
ghost use Rattle.std.specs.Prelude.{◌≡◌, [], ◌∷◌};
ghost use Rattle.model.specs.Question.{ask, first_no};
ghost use Rattle.model.specs.Schedule.{wider_setup, both_in_limits, ask_both, ask_wider, same_pairs};
ghost use Rattle.setup.specs.Views.{setup_of};
ghost use Rattle.pairs.specs.Views.{wider_of};

use setup::{BAD_SETUP, NOT_WIDER, Setup, in_limits};

// 02: "The setup carries both pairs, V below B (else 1), and a mark": what stands beside the old setup.
#[derive(Clone, Copy)]
pub struct Wider {
    // 02: ε'
    pub epsilon: u32,
    // 02: δ'
    pub delta: u32,
    // 02: V, modulo B
    pub change: u32,
    // 02: the mark, 1 where it is set, 0 where not
    pub marked: u32,
}

// The new pair, in the same yard.
pub fn wider_setup(setup: Setup, wider: Wider) -> Setup
    ensures { setup_of result ≡ wider_setup (setup_of setup) (wider_of wider) }
{
    Setup {
        n: setup.n,
        epsilon: wider.epsilon,
        delta: wider.delta,
        modulus: setup.modulus,
    }
}

// 02: "with B in its limits for both", "V below B (else 1)"; a mark is 0 or 1.
fn both_in_limits(setup: Setup, wider: Wider) -> bool
    ensures { result ≡ both_in_limits (setup_of setup) (wider_of wider) }
{
    if !in_limits(setup) {
        return false;
    }
    if !in_limits(wider_setup(setup, wider)) {
        return false;
    }
    if setup.modulus <= wider.change {
        return false;
    }
    wider.marked <= 1
}

// 02: "(Number 19 when ε' or δ' is smaller than the old, asked after 1.)" The number of a no, or 0.
fn check_wider(setup: Setup, wider: Wider) -> u8
    ensures { result ≡ first_no (ask_wider (setup_of setup) (wider_of wider) ∷ []) }
{
    if wider.epsilon < setup.epsilon {
        return NOT_WIDER;
    }
    if wider.delta < setup.delta {
        return NOT_WIDER;
    }
    0
}

// 1, with the own number, and 19: the number of the first no, or 0.
pub fn check_both(setup: Setup, wider: Wider, own: u32) -> u8
    ensures { result ≡ first_no (ask_both (setup_of setup) (wider_of wider) own ∷ ask_wider (setup_of setup) (wider_of wider) ∷ []) }
{
    if !both_in_limits(setup, wider) {
        return BAD_SETUP;
    }
    if setup.n <= own {
        return BAD_SETUP;
    }
    check_wider(setup, wider)
}

// 1 and 19 of a listener, who has no number: the number of the first no, or 0.
pub fn check_pairs(setup: Setup, wider: Wider) -> u8
    ensures { result ≡ first_no (ask (both_in_limits (setup_of setup) (wider_of wider)) 1 ∷ ask_wider (setup_of setup) (wider_of wider) ∷ []) }
{
    if !both_in_limits(setup, wider) {
        return BAD_SETUP;
    }
    check_wider(setup, wider)
}

// The two pairs are one.
pub fn same_pairs(setup: Setup, wider: Wider) -> bool
    ensures { result ≡ same_pairs (setup_of setup) (wider_of wider) }
{
    if wider.epsilon != setup.epsilon {
        return false;
    }
    wider.delta == setup.delta
}
