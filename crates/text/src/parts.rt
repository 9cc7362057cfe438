// The parts of a line, each written at a position where there is room for it; the answer is where
// it ends.
ghost use Rattle.std.specs.Prelude.{◌+◌, ◌≤◌, length};
ghost use Rattle.text.specs.Text.{field, Put};

use crate::digits::put_decimal;
use splice::copy_into;

// A word as it stands.
pub fn put_word(buf: &mut [u8], at: usize, word: &[u8]) -> usize
    requires { at + length word.now ≤ length buf.old }
    ensures { Put buf.old at word.now buf.new result }
{
    copy_into(buf, at, word);
    at + word.len()
}

// A word, and a number after it.
pub fn put_field(buf: &mut [u8], at: usize, word: &[u8], x: usize) -> usize
    requires { at + length (field word.now x) ≤ length buf.old }
    ensures { Put buf.old at (field word.now x) buf.new result }
{
    let end = put_word(buf, at, word);
    put_decimal(buf, end, x)
}
