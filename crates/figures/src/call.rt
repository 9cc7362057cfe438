// The call after each accepted tick or listener's call, with its batch and verdicts.
ghost use Rattle.std.specs.Prelude.{◌≡◌, length};
ghost use Rattle.model.specs.Question.{first_no};
ghost use Rattle.model.specs.Figures.{figure_columns, figures_size, figures_in, figures_bytes, kept_row, figures_questions, keep_figures};
ghost use Rattle.figures.specs.Answers.{answer_of};

use crate::row::{COLUMNS, count_row};
use crate::totals::{ROWS_AT, count_afresh, move_totals};
use setup::{BAD_HOLDBACK, BAD_SETUP};
use splice::copy_into;
use verdicts::check_verdicts;

// The position, the totals and 256 rows.
const FIGURES_SIZE: usize = 29155;

// The number of the first no, or 0.
fn check_figures(n: u32, batch: &[u8], verdicts: &[u8], figures: &[u8]) -> u8
    ensures { result ≡ first_no (figures_questions n batch.now verdicts.now figures.now) }
{
    if n < 1 {
        return BAD_SETUP;
    }
    if 16 < n {
        return BAD_SETUP;
    }
    if figures.len() != FIGURES_SIZE {
        return BAD_HOLDBACK;
    }
    check_verdicts(batch, verdicts)
}

// The row takes the place of the one at the position, and the totals follow; at the last position they are counted afresh.
fn put_row(figures: &mut [u8], row: &[u8])
    requires { (length figures.old ≡ figures_size) × (length row.now ≡ figure_columns) }
    ensures { figures.new ≡ figures_bytes (kept_row (figures_in figures.old) row.now) }
{
    let position = figures[0] as usize;
    let at = ROWS_AT + COLUMNS * position;
    if position == 255 {
        copy_into(figures, at, row);
        count_afresh(figures);
        figures[0] = 0;
        return;
    }
    move_totals(figures, at, row);
    copy_into(figures, at, row);
    figures[0] = (position + 1) as u8;
}

// 02, 2.13. Any number and bytes get an answer, 0 or the number of the first no; a refusal changes nothing.
pub fn keep_figures(n: u32, batch: &[u8], verdicts: &[u8], figures: &mut [u8]) -> u8
    ensures { answer_of result figures.new ≡ keep_figures n batch.now verdicts.now figures.old }
{
    let number = check_figures(n, batch, verdicts, figures);
    if number != 0 {
        return number;
    }
    let row = count_row(n as usize, batch, verdicts);
    put_row(figures, &row);
    0
}
