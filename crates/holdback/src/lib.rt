// 01: the shelf, here the hold-back queue, in a lent buffer: a two-byte count, the frames in delivery order, each ending
// where its counts say, and then bytes that are ignored until the tick's end writes zeros there.

#![tactic(auto)]

mod change;
mod compare;
mod due;
mod keys;
mod origins;
mod overdue;
mod search;
mod soundness;
mod starts;
mod timing;

pub use change::{Place, append_frames, cut_frames, drop_frames, empty, insert_frame, put};
pub use compare::{comes_before, rank_at, rank_of};
pub use due::cut_due;
pub use origins::{TABLE_LENGTH, clear_mark, clear_marks, has_mark, mark, put_mark, repeats, slot};
pub use overdue::release;
pub use search::place_for;
pub use soundness::{Walk, emptied, sound};
pub use starts::{FRONT, START_ENTRIES, START_UNIT, shift_starts};
pub use timing::{due_of, reading_clock, reading_of, sum_wait, used_entries};
