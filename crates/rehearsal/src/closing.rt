// 02: "For a check number from 10 to 16 also give the smallest number of opening steps in which some
// frame is refused by it, or none". A figure for each of the seven, 0 for none.
ghost use Rattle.std.specs.Prelude.{◌≡◌, ◌+◌, ◌≤◌, ◌<◌, length};
ghost use Rattle.text.specs.Text.{Put};
ghost use Rattle.rehearsal.specs.Closing.{figure_text, figure_line};
ghost use Rattle.rehearsal.specs.Views.{as_figure, noted, noted_all, figures_text};

use setup::{BAD_FORM, REPEAT};
use text::{put_decimal, put_field, put_word};

// The figures after a verdict of the step with that number.
fn noted_figures(figures: [usize; 7], number: u8, step: usize) -> [usize; 7]
    ensures { result ≡ noted step figures number }
{
    if number < BAD_FORM {
        return figures;
    }
    if REPEAT < number {
        return figures;
    }
    let at = number as usize - BAD_FORM as usize;
    if figures[at] != 0 {
        return figures;
    }
    let mut changed = figures;
    changed[at] = step;
    changed
}

// The figures after all its verdicts.
pub fn note_verdicts(figures: [usize; 7], verdicts: &[u8], step: usize) -> [usize; 7]
    ensures { result ≡ noted_all step figures verdicts.now }
{
    let mut after = figures;
    let mut i = 0;
    while i < verdicts.len() {
        let next = noted_figures(after, verdicts[i], step);
        after = next;
        i += 1;
    }
    after
}

// 02: "as `13 4` or `13 -`": what follows the check number.
fn put_figure_text(buf: &mut [u8], at: usize, figure: usize) -> usize
    requires { at + length (figure_text (as_figure figure)) ≤ length buf.old }
    ensures { Put buf.old at (figure_text (as_figure figure)) buf.new result }
{
    if figure == 0 {
        return put_word(buf, at, b" -");
    }
    put_field(buf, at, b" ", figure)
}

// A line of a check number and its figure: 24 bytes at most.
fn put_figure(buf: &mut [u8], at: usize, number: usize, figure: usize) -> usize
    requires { (number < 100) × (at + 24 ≤ length buf.old) }
    ensures { Put buf.old at (figure_line number (as_figure figure)) buf.new result × (result ≤ at + 24) }
{
    let after_number = put_decimal(buf, at, number);
    let after_figure = put_figure_text(buf, after_number, figure);
    put_word(buf, after_figure, b"\n")
}

// Writes the seven lines at the start of a buffer.
pub fn put_figures(buf: &mut [u8], figures: [usize; 7]) -> usize
    requires { 168 ≤ length buf.old }
    ensures { Put buf.old 0 (figures_text figures) buf.new result × (result ≤ 168) }
{
    let mut end = 0;
    let mut i = 0;
    while i < 7 {
        end = put_figure(buf, end, BAD_FORM as usize + i, figures[i]);
        i += 1;
    }
    end
}
