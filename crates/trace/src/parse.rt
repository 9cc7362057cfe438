// From the bytes of a trace to the arguments of a call. A byte that is missing reads as 0.
ghost use Rattle.std.specs.Prelude.{◌≡◌, ◌≤◌};
ghost use Rattle.trace.specs.Views.{node_setup_of};
ghost use Rattle.trace.specs.Trace.{trace_setup, setup_number, tick_count, count_number, end_number, one_before, clock_of, send_of, payload_of, batch_of, tick_end, longest_tick, tick_number};

use setup::{BAD_SETUP, Setup, holdback_length, valid_for};
use splice::{byte_at, part, two_at};

// How many bytes the setup has, and the count of ticks after it.
pub const SETUP_LENGTH: usize = 6;

pub const COUNT_LENGTH: usize = 2;

// 01: "A cut or overlong trace, or a send byte other than 0 or 1, gets 5".
pub const BAD_TRACE: u8 = 5;

// 01: the setup, as a trace has it: the group's numbers, and the own number.
#[derive(Clone, Copy)]
pub struct NodeSetup {
    pub setup: Setup,
    pub own: u32,
}

// The setup of a trace, at its start.
pub fn read_setup(s: &[u8]) -> NodeSetup
    ensures { node_setup_of result ≡ trace_setup s.now }
{
    let setup = Setup {
        n: byte_at(s, 0) as u32,
        epsilon: byte_at(s, 1) as u32,
        delta: byte_at(s, 2) as u32,
        modulus: two_at(s, 3) as u32,
    };
    NodeSetup {
        setup,
        own: byte_at(s, 5) as u32,
    }
}

// 01: the setup, of `size` bytes, "is judged once read": 5 where it is cut, 1 where it is out of its
// limits or its hold-back queue (01: shelf) is too large, otherwise 0.
pub fn setup_number(s: &[u8], size: usize) -> u8
    ensures { result ≡ setup_number size s.now }
{
    if s.len() < size {
        return BAD_TRACE;
    }
    let read = read_setup(s);
    let setup = read.setup;
    if !valid_for(setup, read.own) {
        return BAD_SETUP;
    }
    if 65536
        < holdback_length(
            setup.n as usize,
            setup.epsilon as usize,
            setup.delta as usize,
        )
    {
        return BAD_SETUP;
    }
    0
}

// 01: "a two-byte count of ticks", at the start of `s`.
pub fn tick_count(s: &[u8]) -> usize
    ensures { result ≡ tick_count s.now }
{
    two_at(s, 0)
}

// 0, or 5 where the count of ticks is cut.
pub fn count_number(s: &[u8]) -> u8
    ensures { result ≡ count_number s.now }
{
    if s.len() < COUNT_LENGTH {
        return BAD_TRACE;
    }
    0
}

// What the trace stops with after its last tick, by how many bytes `more` there are: 5 where it is
// overlong, otherwise 0.
pub fn end_number(more: usize) -> u8
    ensures { result ≡ end_number more }
{
    if 0 < more {
        return BAD_TRACE;
    }
    0
}

// 01: "one before the first clock".
pub fn one_before(modulus: usize, clock: usize) -> usize
    ensures { result ≡ one_before modulus clock }
{
    if 0 < clock {
        return clock - 1;
    }
    if 0 < modulus {
        return modulus - 1;
    }
    0
}

// Where the tick at the start of `s` ends; before all of it is there, the fewest bytes that it can
// have. Whoever reads up to there never reads past the tick.
pub fn tick_end(s: &[u8]) -> usize
    ensures { (result ≡ tick_end s.now) × (result ≤ longest_tick) }
{
    let batch = 4 + byte_at(s, 3) as usize;
    let mut left = byte_at(s, batch) as usize;
    let mut end = batch + 1;
    while 0 < left {
        end += 1 + byte_at(s, end) as usize;
        left -= 1;
    }
    end
}

// 0, or 5 where `s` is not one whole tick, or its send byte is neither 0 nor 1.
fn tick_number(s: &[u8]) -> u8
    ensures { result ≡ tick_number s.now }
{
    let end = tick_end(s);
    if end != s.len() {
        return BAD_TRACE;
    }
    if 1 < byte_at(s, 2) {
        return BAD_TRACE;
    }
    0
}

// What a tick's bytes ask for; `payload_of` and `batch_of` have the rest.
#[derive(Drop)]
pub struct Call {
    // what `tick_number` answers
    pub number: u8,
    pub clock: usize,
    pub send: bool,
}

// What the tick `s` asks for; where it is cut, what can be read of it.
pub fn read_call(s: &[u8]) -> Call
    ensures { (result.number ≡ tick_number s.now) × ((result.clock ≡ clock_of s.now) × (result.send ≡ send_of s.now)) }
{
    Call {
        number: tick_number(s),
        clock: two_at(s, 0),
        send: byte_at(s, 2) == 1,
    }
}

// The payload (01: ticket), as a part of the tick's bytes.
pub fn payload_of(s: &[u8]) -> &[u8]
    ensures { result.now ≡ payload_of s.now }
{
    part(s, 4, byte_at(s, 3) as usize)
}

// The batch (01: bundle), as a part of the tick's bytes.
pub fn batch_of(s: &[u8]) -> &[u8]
    ensures { result.now ≡ batch_of s.now }
{
    let from = 4 + byte_at(s, 3) as usize;
    let end = tick_end(s);
    part(s, from, end - from)
}
