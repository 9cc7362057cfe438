// The totals: two bytes each, behind the position.
ghost use Rattle.std.specs.Prelude.{◌≡◌, ◌+◌, ◌≤◌, ◌<◌, length, drop, get_or};
ghost use Rattle.laws.specs.Lists.{tab, joined};
ghost use Rattle.model.specs.Frame.{two_bytes};
ghost use Rattle.model.specs.Figures.{figure_columns, figures_size, last_ticks, rows_at, rows_in, total_at, fresh_total, moved_total};
ghost use Rattle.splice.specs.Bytes.{pasted};

use crate::row::COLUMNS;
use splice::{put_u16, two_at};

// Where the rows stand: behind the position and the totals.
pub const ROWS_AT: usize = 227;

// 02: "its yard's last 256 accepted ticks".
const LAST_TICKS: usize = 256;

// What stands in a column, over all rows.
fn fresh_total(figures: &[u8], column: usize) -> usize
    requires { (length figures.now ≡ figures_size) × (column < figure_columns) }
    ensures { (result ≡ fresh_total (rows_in last_ticks (drop rows_at figures.now)) column) × (result < 65536) }
{
    let mut total = 0;
    let mut k = 0;
    while k < LAST_TICKS {
        total += figures[ROWS_AT + COLUMNS * k + column] as usize;
        k += 1;
    }
    total
}

// 02: "a fresh count": the totals are those of the rows.
pub fn count_afresh(figures: &mut [u8])
    requires { length figures.old ≡ figures_size }
    ensures { figures.new
        ≡ pasted figures.old 1 (joined two_bytes (tab figure_columns (fresh_total (rows_in last_ticks (drop rows_at figures.old))))) }
{
    let mut column = 0;
    while column < COLUMNS {
        let total = fresh_total(figures, column);
        put_u16(figures, 1 + 2 * column, total);
        column += 1;
    }
}

// In a column the row that goes, which stands at `at`, is taken off and the one that comes is added.
fn moved_total(figures: &[u8], at: usize, row: &[u8], column: usize) -> usize
    requires { (at + figure_columns ≤ length figures.now) × ((length row.now ≡ figure_columns) × (column < figure_columns)) }
    ensures { (result ≡ moved_total (total_at figures.now column) (get_or figures.now (at + column) 0) (get_or row.now column 0))
        × (result < 65536) }
{
    let total = two_at(figures, 1 + 2 * column);
    (total + (65536 - figures[at + column] as usize) + row[column] as usize) % 65536
}

// 02: "as ticks come and go": so in all columns.
pub fn move_totals(figures: &mut [u8], at: usize, row: &[u8])
    requires { (length figures.old ≡ figures_size) × ((rows_at ≤ at) × ((at + figure_columns ≤ figures_size) × (length row.now ≡ figure_columns))) }
    ensures { figures.new
        ≡ pasted figures.old 1 (joined two_bytes (tab figure_columns (λ column. moved_total (total_at figures.old column)
        (get_or figures.old (at + column) 0) (get_or row.now column 0)))) }
{
    let mut column = 0;
    while column < COLUMNS {
        let total = moved_total(figures, at, row, column);
        put_u16(figures, 1 + 2 * column, total);
        column += 1;
    }
}
