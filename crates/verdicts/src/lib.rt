// The verdict buffer of a call beside its batch: what is asked of both before they are made into words (02, 2.1) or figures (02, 2.13).

#![tactic(auto)]

ghost use Rattle.std.specs.Prelude.{◌≡◌, ◌≤◌, length, take};
ghost use Rattle.laws.specs.Lists.{every};
ghost use Rattle.model.specs.Question.{first_no};
ghost use Rattle.model.specs.Verdicts.{given, verdict_questions};

use batch::{count_of, exact};
use setup::{BAD_BATCH, BAD_BUFFERS, BAD_FORM, REPEAT};

// Whether a judgement gives the number.
fn is_given(number: u8) -> bool
    ensures { result ≡ given number }
{
    if number == 0 {
        return true;
    }
    if number < BAD_FORM {
        return false;
    }
    number <= REPEAT
}

// Whether a judgement gives each of the first `count` verdicts.
fn all_given(verdicts: &[u8], count: usize) -> bool
    requires { count ≤ length verdicts.now }
    ensures { result ≡ every given (take count verdicts.now) }
{
    let mut i = 0;
    while i < count {
        if !is_given(verdicts[i]) {
            return false;
        }
        i += 1;
    }
    true
}

// The number of the first no, or 0.
pub fn check_verdicts(batch: &[u8], verdicts: &[u8]) -> u8
    ensures { result ≡ first_no (verdict_questions batch.now verdicts.now) }
{
    if !exact(batch) {
        return BAD_BATCH;
    }
    let count = count_of(batch);
    if verdicts.len() < count {
        return BAD_BUFFERS;
    }
    if !all_given(verdicts, count) {
        return BAD_BUFFERS;
    }
    0
}
