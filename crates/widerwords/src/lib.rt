// 02, 2.10: the words of 2.1 with both pairs of limits, which print the limits of the mark's side.

#![tactic(auto)]

ghost use Rattle.std.specs.Prelude.{◌≡◌, ◌*◌, ◌≤◌};
ghost use Rattle.setup.specs.Views.{setup_of};
ghost use Rattle.pairs.specs.Views.{wider_of};
ghost use Rattle.words.specs.Words.{longest_line};
ghost use Rattle.words.specs.Answers.{answer_of};
ghost use Rattle.widerwords.specs.Words.{words_in};

use pairs::{Wider, check_both, marked_side};
use setup::Setup;
use words::{Written, write_words};

// The words of a batch and of the verdict buffer that a tick left. Behind 1 and 19 they are the plain ones of the mark's side.
pub fn write_words_in(
    setup: Setup,
    wider: Wider,
    own: u32,
    batch: &[u8],
    verdicts: &[u8],
    text: &mut [u8],
) -> Written
    ensures text_after { answer_of result text.new
        ≡ words_in (setup_of setup) (wider_of wider) own batch.now verdicts.now text.old }
    ensures size_bound { result.size ≤ longest_line * 255 }
{
    let number = check_both(setup, wider, own);
    if number != 0 {
        return Written { number, size: 0 };
    }
    let side = marked_side(setup, wider);
    write_words(side, own, batch, verdicts, text)
}
