// Numbers as text.
ghost use Rattle.std.specs.Prelude.{◌≡◌, ◌+◌, ◌≤◌, ◌<◌, length};
ghost use Rattle.splice.specs.Bytes.{pasted};
ghost use Rattle.text.specs.Text.{glyph, digits, digit_count, decimal, Put};

// The ASCII code, a byte of text, of a digit below 16.
fn glyph_of(d: usize) -> u8
    requires { d < 16 }
    ensures { result ≡ glyph d }
{
    char::from_digit(d as u32, 16).unwrap() as u8
}

// Writes the last `count` digits of `x` in `base`.
pub fn put_digits(buf: &mut [u8], at: usize, base: usize, count: usize, x: usize)
    requires { ((0 < base) × (base ≤ 16)) × (at + count ≤ length buf.old) }
    ensures { buf.new ≡ pasted buf.old at (digits base count x) }
{
    let mut rest = x;
    for i in (0..count).rev() {
        buf[at + i] = glyph_of(rest % base);
        rest /= base;
    }
}

// How many digits `x` has in decimal; 20 at most.
pub fn digit_count(x: usize) -> usize
    ensures { (result ≡ digit_count x) × (result ≤ 20) }
{
    x.max(1).ilog10() as usize + 1
}

// Writes `x` in decimal, and answers where it ends.
pub fn put_decimal(buf: &mut [u8], at: usize, x: usize) -> usize
    requires { at + length (decimal x) ≤ length buf.old }
    ensures { Put buf.old at (decimal x) buf.new result }
{
    let count = digit_count(x);
    put_digits(buf, at, 10, count, x);
    at + count
}
