// The frame: its form, the reader and the writer.

#![tactic(auto)]

mod form;
mod newest;
mod reader;
mod window;
mod writer;

pub use form::{
    c_of, check, counts_part, frame_end, later_formed, payload_part, r_of, stamp_of, station_of,
};
pub use newest::newest_counts;
pub use reader::{ReadFrame, payload_of, read, refused};
pub use window::{check_window, window_end};
pub use writer::{Written, check_contents, lay, lay_later, write};
