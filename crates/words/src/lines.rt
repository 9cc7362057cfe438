// The lines of a batch.
ghost use Rattle.std.specs.Prelude.{◌≡◌, ◌*◌, ◌≤◌};
ghost use Rattle.model.specs.Batch.{batch_entries};
ghost use Rattle.setup.specs.Views.{setup_of};
ghost use Rattle.text.specs.Text.{Put};
ghost use Rattle.words.specs.Words.{longest_line, text_of, words};
ghost use Rattle.words.specs.Answers.{answer_of, Answered};

use crate::line::put_line;
use crate::questions::check_words;
use batch::count_of;
use batch::walker::walk_entry;
use setup::Setup;

// Writes a line for each entry, where every question got a yes, and says where the last one ends.
fn put_lines(setup: Setup, batch: &[u8], verdicts: &[u8], text: &mut [u8]) -> usize
    requires { Answered (setup_of setup) batch.now verdicts.now text.old }
    ensures put { Put text.old 0 (text_of (setup_of setup) (batch_entries batch.now) verdicts.now) text.new result }
    ensures upper_bound { result ≤ longest_line * 255 }
{
    let count = count_of(batch);
    let mut position = 0;
    let mut at = 1;
    let mut end = 0;
    while position < count {
        let span = walk_entry(batch, at);
        let start = span.start;
        let next = span.end;
        let entry = &batch[start..next];
        end = put_line(text, end, setup, position, verdicts[position], entry);
        at = next;
        position += 1;
    }
    end
}

// What the call answers.
#[derive(Drop)]
pub struct Written {
    // 0, or the number of the first no
    pub number: u8,
    // how long the text is
    pub size: usize,
}

// 02, 2.1: the words of a batch and of the verdict buffer that a tick left. Any numbers and bytes get an answer; a refusal writes
// nothing, and bytes beyond the text stay. No batch has more than 255 entries.
pub fn write_words(
    setup: Setup,
    own: u32,
    batch: &[u8],
    verdicts: &[u8],
    text: &mut [u8],
) -> Written
    ensures text_after { answer_of result text.new
        ≡ words (setup_of setup) own batch.now verdicts.now text.old }
    ensures size_bound { result.size ≤ longest_line * 255 }
{
    let number = check_words(setup, own, batch, verdicts, text);
    if number != 0 {
        return Written { number, size: 0 };
    }
    let size = put_lines(setup, batch, verdicts, text);
    Written { number: 0, size }
}
