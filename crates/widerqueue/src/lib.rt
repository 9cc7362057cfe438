// 02, 2.10: the shelf, here the hold-back queue, with frames of both widths on it, judged by both pairs of limits. No table of starts: a search
// and a cut walk from the front.

#![tactic(auto)]

mod change;
mod due;
mod order;
mod overdue;
mod search;
mod soundness;
mod timing;

pub use change::put;
pub use due::{cut_due, front_before};
pub use order::comes_before;
pub use overdue::release;
pub use search::place_for;
pub use soundness::sound;
pub use timing::due_of;
