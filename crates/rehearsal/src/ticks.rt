// A step as a tick of replay's, written into a buffer.
ghost use Rattle.std.specs.Prelude.{◌≡◌, true, ◌+◌, ◌*◌, ◌≤◌, length};
ghost use Rattle.laws.specs.Lists.{joined};
ghost use Rattle.text.specs.Text.{Put};
ghost use Rattle.rehearsal.specs.Step.{frame_by, is_sent, heard_frames, tick_with};
ghost use Rattle.rehearsal.specs.Views.{Kept, Playable, sent_of, entry_of, longest_turn};

use crate::frames::{SLOT_SIZE, sent_size};
use crate::parse::{heard_at, heard_count, heard_number};
use splice::part;
use text::put_word;

// Writes the entry of the frame that the step with that number has sent: the used bytes of its slot.
fn put_entry(out: &mut [u8], at: usize, slots: &[u8], steps: usize, number: usize) -> usize
    requires kept { Kept steps slots.now × (is_sent (sent_of steps slots.now) number ≡ true) }
    requires number_in_bounds { at + length (entry_of (frame_by (sent_of steps slots.now) number)) ≤ length out.old }
    ensures { Put out.old at (entry_of (frame_by (sent_of steps slots.now) number)) out.new result }
{
    let size = sent_size(slots, steps, number);
    put_word(out, at, part(slots, SLOT_SIZE * (number - 1), 1 + size))
}

// Writes the entries of the frames that the step hears.
fn put_entries(out: &mut [u8], at: usize, s: &[u8], slots: &[u8], steps: usize) -> usize
    requires kept { Kept steps slots.now × Playable (sent_of steps slots.now) s.now }
    requires s_in_bounds { at + length (joined entry_of (heard_frames (sent_of steps slots.now) s.now)) ≤ length out.old }
    ensures { Put out.old at (joined entry_of (heard_frames (sent_of steps slots.now) s.now)) out.new result }
{
    let count = heard_count(s);
    let mut end = at;
    let mut i = 0;
    while i < count {
        end = put_entry(out, end, slots, steps, heard_number(s, i));
        i += 1;
    }
    end
}

// Writes the step as a tick: its clock, send and ticket, and a batch (01: bundle) of the frames that it
// hears. The count of those is the batch's.
pub fn put_tick(out: &mut [u8], s: &[u8], slots: &[u8], steps: usize) -> usize
    requires kept { Kept steps slots.now × Playable (sent_of steps slots.now) s.now }
    requires longest_turn_in_bounds { longest_turn ≤ length out.old }
    ensures { Put out.old 0 (tick_with (sent_of steps slots.now) s.now) out.new result × (result ≤ longest_turn) }
{
    let end = put_word(out, 0, part(s, 1, heard_at(s)));
    put_entries(out, end, s, slots, steps)
}
