// 02, 2.11: ginning charges on the board: one ticket a call, charged into a ledger that the board's host keeps, and each grower's total.

#![tactic(auto)]

mod call;
mod cents;
mod entering;
mod form;
mod search;
mod totals;

pub use call::{Charging, charge};
pub use totals::{Totalled, total};
