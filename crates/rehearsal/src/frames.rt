// The frames that the steps have sent: a slot of 72 bytes for each step, a length byte and the frame,
// slot k for step k + 1; the length is 0 where a step sent none.
ghost use Rattle.std.specs.Prelude.{◌≡◌, ◌≤◌, ◌<◌, length, take};
ghost use Rattle.laws.specs.Lists.{every};
ghost use Rattle.rehearsal.specs.Step.{heard_numbers, frame_by, is_sent, step_number};
ghost use Rattle.rehearsal.specs.Views.{Kept, sent_of, with_frame};

use crate::parse::{heard_count, heard_number, station_of, step_end};
use splice::{copy_into, part};
use trace::BAD_TRACE;

// How many bytes a slot has.
pub const SLOT_SIZE: usize = 72;

// Keeps what the step at index `step` has sent, the first `sent` bytes of `outgoing`.
pub fn keep_frame(slots: &mut [u8], step: usize, outgoing: &[u8], sent: usize)
    requires { Kept step slots.old × ((step < 1000) × ((sent ≤ 71) × (sent ≤ length outgoing.now))) }
    ensures { slots.new ≡ with_frame slots.old step (take sent outgoing.now) }
{
    let at = SLOT_SIZE * step;
    slots[at] = sent as u8;
    copy_into(slots, at + 1, part(outgoing, 0, sent));
}

// How long the frame of the step with that number is; 0 where it is no earlier step, or sent none.
pub fn sent_size(slots: &[u8], steps: usize, number: usize) -> usize
    requires { Kept steps slots.now }
    ensures { (result ≡ length (frame_by (sent_of steps slots.now) number)) × (result ≤ 71) }
{
    if number == 0 {
        return 0;
    }
    if steps < number {
        return 0;
    }
    slots[SLOT_SIZE * (number - 1)] as usize
}

// Whether each frame that the step hears was sent by an earlier one.
fn all_sent(s: &[u8], slots: &[u8], steps: usize) -> bool
    requires { Kept steps slots.now }
    ensures { result ≡ every (is_sent (sent_of steps slots.now)) (heard_numbers s.now) }
{
    let count = heard_count(s);
    let mut i = 0;
    while i < count {
        if sent_size(slots, steps, heard_number(s, i)) == 0 {
            return false;
        }
        i += 1;
    }
    true
}

// 0, or 5 where `s` is no step of a group of `n` stations whose steps so far have sent these frames.
pub fn step_number(s: &[u8], n: usize, slots: &[u8], steps: usize) -> u8
    requires { Kept steps slots.now }
    ensures { result ≡ step_number n (sent_of steps slots.now) s.now }
{
    if step_end(s) != s.len() {
        return BAD_TRACE;
    }
    if n <= station_of(s) {
        return BAD_TRACE;
    }
    if !all_sent(s, slots, steps) {
        return BAD_TRACE;
    }
    0
}
