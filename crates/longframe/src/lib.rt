// 02, 2.9: the frame of an engine with long clocks: its lengths, its form, the reader and the writer. From its second section on it
// stands as a station's frame stands, six bytes on, so that crate frame's functions read it there.

#![tactic(auto)]

mod form;
mod limits;
mod reader;
mod writer;

pub use form::{check, frame_end, r_of, six_on, station_of};
pub use limits::{BOUND, MOST, holdback_length, longest_frame, valid_for};
pub use reader::{payload_of, read};
pub use writer::{lay, write};
