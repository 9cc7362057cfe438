// 02, 2.10, "Wider limits in mid season": both pairs of limits, the questions on them, and what goes by them.

#![tactic(auto)]

mod both;
mod fresh;
mod limits;

pub use both::{Wider, check_both, check_pairs, same_pairs, wider_setup};
pub use fresh::{check_fresh, fresh_tables, marked_side};
pub use limits::{
    Pairs, compared_along, due_along, limits_at, own_limits, pairs_near, pairs_of, side_of,
    tables_half,
};
