// 02, 2.10: frames of both widths: "both widths are read always".

#![tactic(auto)]

mod codec;
mod form;

pub use codec::{ReadIn, payload_in, read_in, write_in};
pub use form::{check, check_window, frame_end, half_in, side_in};
