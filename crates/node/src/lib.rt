// One tick of a node: the call's questions, one frame judged, the hearing, sending and delivering; and what of it an observer shares.

#![tactic(auto)]

mod attending;
mod call;
mod clock;
mod hearing;
mod idle;
mod questions;
mod queue;
mod sending;
mod ticking;
mod verdict;

pub use attending::{Attended, attend};
pub use call::{check_buffers, check_sized};
pub use clock::{OpenedClock, open_clock};
pub use hearing::{Heard, absorb_counts};
pub use idle::{is_idle, pass_over};
pub use questions::check_time;
pub use queue::OpenedQueue;
pub use sending::send_frame;
pub use ticking::{Answer, Opening, tick};
pub use verdict::{Placed, Verdict, number_of};
