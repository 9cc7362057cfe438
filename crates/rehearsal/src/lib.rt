// 02, 2.8, "Rehearse the whole yard": from the bytes of a trace of all stations to the ticks of each,
// and the lines of text. Any bytes get an answer.

#![tactic(auto)]

mod closing;
mod frames;
mod labels;
mod parse;
mod step;
mod ticks;

pub use closing::{note_verdicts, put_figures};
pub use frames::{keep_frame, step_number};
pub use labels::put_labelled;
pub use parse::{GROUP_SETUP_LENGTH, MOST_STEPS, heard_count, station_of, step_end, steps_number};
pub use step::{Rehearsal, Rehearsed, new_group, rehearse_step};
pub use ticks::put_tick;
