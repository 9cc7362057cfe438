// What is asked before anything is written.
ghost use Rattle.std.specs.Prelude.{◌≡◌};
ghost use Rattle.model.specs.Question.{first_no};
ghost use Rattle.setup.specs.Views.{setup_of};
ghost use Rattle.words.specs.Words.{words_questions};

use batch::count_of;
use setup::{BAD_BUFFERS, BAD_SETUP, Setup, valid_for};
use verdicts::check_verdicts;

// 02: "A line is at most 29 bytes".
const LONGEST_LINE: usize = 29;

// The number of the first no, or 0.
pub fn check_words(setup: Setup, own: u32, batch: &[u8], verdicts: &[u8], text: &[u8]) -> u8
    ensures { result ≡ first_no (words_questions (setup_of setup) own batch.now verdicts.now text.now) }
{
    if !valid_for(setup, own) {
        return BAD_SETUP;
    }
    let number = check_verdicts(batch, verdicts);
    if number != 0 {
        return number;
    }
    if text.len() < LONGEST_LINE * count_of(batch) {
        return BAD_BUFFERS;
    }
    0
}
