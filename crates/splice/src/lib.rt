// Changes to a byte buffer in place: copy into it, move a part of it down, clear a part, insert into and cut from the
// bytes in use, and write a number in two bytes, four or eight. And what stands at a position of any bytes, one of them,
// two, four or eight as a number, and a part of them.
//
// Each contract is one equation: the buffer at exit is a definition of `specs/Bytes.antt` at the
// buffer at entry. Each `requires` keeps the indices within the buffer; the callers are inside this
// library and meet it by tests of their own.

#![tactic(auto)]

ghost use Rattle.std.specs.Prelude.{◌≡◌, ◌+◌, ◌-◌, ◌^◌, ◌≤◌, ◌<◌, length, get_or};
ghost use Rattle.laws.specs.Lex.{number_of};
ghost use Rattle.model.specs.Frame.{two_at, two_bytes};
ghost use Rattle.model.specs.Long.{low_first};
ghost use Rattle.splice.specs.Bytes.{pasted, part, cleared, inserted, cut_out};

// The bytes that the processor takes at once. Copies and moves go by such blocks, and byte by byte only where there is less than one.
const BLOCK: usize = 16;

// The bytes that the C library moves at once: the compiler makes a call of it of the loops over a local array, which cannot overlap a
// buffer.
const CHUNK: usize = 1024;

// Copies all of `src` into `dst`, from index `at` on, block by block. The last block ends where `src` ends, and may write again what
// the one before it wrote.
pub fn copy_into(dst: &mut [u8], at: usize, src: &[u8])
    requires { at + length src.now ≤ length dst.old }
    ensures { dst.new ≡ pasted dst.old at src.now }
{
    let n = src.len();
    if n < BLOCK {
        copy_bytes(dst, at, src);
        return;
    }
    let last = block_at(src, n - BLOCK);
    let mut done = 0;
    while done + BLOCK < n {
        let block = block_at(src, done);
        copy_bytes(dst, at + done, &block);
        done += BLOCK;
    }
    copy_bytes(dst, at + (n - BLOCK), &last);
}

// The same, byte by byte.
fn copy_bytes(dst: &mut [u8], at: usize, src: &[u8])
    requires { at + length src.now ≤ length dst.old }
    ensures { dst.new ≡ pasted dst.old at src.now }
{
    let n = src.len();
    let mut i = 0;
    while i < n {
        dst[at + i] = src[i];
        i += 1;
    }
}

// The block at a position, by value.
fn block_at(s: &[u8], at: usize) -> [u8; BLOCK]
    requires { at + 16 ≤ length s.now }
    ensures { result ≡ part s.now at 16 }
{
    let mut block = [0u8; BLOCK];
    let mut i = 0;
    while i < BLOCK {
        block[i] = s[at + i];
        i += 1;
    }
    block
}

// The chunk at a position, by value.
fn chunk_at(s: &[u8], at: usize) -> [u8; CHUNK]
    requires { at + 1024 ≤ length s.now }
    ensures { result ≡ part s.now at 1024 }
{
    let mut chunk = [0u8; CHUNK];
    let mut i = 0;
    while i < CHUNK {
        chunk[i] = s[at + i];
        i += 1;
    }
    chunk
}

// Moves the `len` bytes at index `from` down to index `to`, chunk by chunk; the two places may overlap. Where they are one place there
// is nothing to do.
pub fn move_left(buf: &mut [u8], from: usize, to: usize, len: usize)
    requires { (to ≤ from) × (from + len ≤ length buf.old) }
    ensures { buf.new ≡ pasted buf.old to (part buf.old from len) }
{
    if to == from {
        return;
    }
    let mut done = 0;
    while done + CHUNK <= len {
        let chunk = chunk_at(buf, from + done);
        copy_bytes(buf, to + done, &chunk);
        done += CHUNK;
    }
    move_rest(buf, from + done, to + done, len - done);
}

// The same, block by block. The last block is read before anything is written, and may write again what the one before it wrote.
fn move_rest(buf: &mut [u8], from: usize, to: usize, len: usize)
    requires { (to ≤ from) × (from + len ≤ length buf.old) }
    ensures { buf.new ≡ pasted buf.old to (part buf.old from len) }
{
    if len < BLOCK {
        move_bytes(buf, from, to, len);
        return;
    }
    let last = block_at(buf, from + (len - BLOCK));
    let mut done = 0;
    while done + BLOCK < len {
        let block = block_at(buf, from + done);
        copy_bytes(buf, to + done, &block);
        done += BLOCK;
    }
    copy_bytes(buf, to + (len - BLOCK), &last);
}

// The same, byte by byte.
fn move_bytes(buf: &mut [u8], from: usize, to: usize, len: usize)
    requires { (to ≤ from) × (from + len ≤ length buf.old) }
    ensures { buf.new ≡ pasted buf.old to (part buf.old from len) }
{
    let mut done = 0;
    while done < len {
        buf[to + done] = buf[from + done];
        done += 1;
    }
}

// Moves the `len` bytes at index `from` up to index `to`, block by block, the last one first; the two places may overlap. The first
// block is read before anything is written, and may write again what the one after it wrote.
fn move_right(buf: &mut [u8], from: usize, to: usize, len: usize)
    requires { (from ≤ to) × (to + len ≤ length buf.old) }
    ensures { buf.new ≡ pasted buf.old to (part buf.old from len) }
{
    if len < BLOCK {
        move_bytes_right(buf, from, to, len);
        return;
    }
    let first = block_at(buf, from);
    let mut rest = len;
    while BLOCK < rest {
        rest -= BLOCK;
        let block = block_at(buf, from + rest);
        copy_bytes(buf, to + rest, &block);
    }
    copy_bytes(buf, to, &first);
}

// The same, byte by byte.
fn move_bytes_right(buf: &mut [u8], from: usize, to: usize, len: usize)
    requires { (from ≤ to) × (to + len ≤ length buf.old) }
    ensures { buf.new ≡ pasted buf.old to (part buf.old from len) }
{
    let mut rest = len;
    while 0 < rest {
        rest -= 1;
        buf[to + rest] = buf[from + rest];
    }
}

// Writes 0 at each index from `from` up to, not including, `to`.
pub fn clear(buf: &mut [u8], from: usize, to: usize)
    requires { (from ≤ to) × (to ≤ length buf.old) }
    ensures { buf.new ≡ cleared buf.old from to }
{
    let len = to - from;
    let mut k = 0;
    while k < len {
        buf[from + k] = 0;
        k += 1;
    }
}

// Puts `src` in before index `at`. The first `used` bytes of `buf` are in use; those from `at` on move
// right to make room.
pub fn insert(buf: &mut [u8], used: usize, at: usize, src: &[u8])
    requires { (at ≤ used) × (used + length src.now ≤ length buf.old) }
    ensures { buf.new ≡ inserted buf.old used at src.now }
{
    move_right(buf, at, at + src.len(), used - at);
    copy_into(buf, at, src);
}

// Takes out the `len` bytes at index `at`. The first `used` bytes of `buf` are in use; those after the
// cut move left, and the place that is freed is cleared.
pub fn cut(buf: &mut [u8], used: usize, at: usize, len: usize)
    requires { (at + len ≤ used) × (used ≤ length buf.old) }
    ensures { buf.new ≡ cut_out buf.old used at len }
{
    let end = at + len;
    move_left(buf, end, at, used - end);
    clear(buf, used - len, used);
}

// Writes `value` at index `at` as two bytes, the low one first.
pub fn put_u16(buf: &mut [u8], at: usize, value: usize)
    requires { (at + 2 ≤ length buf.old) × (value < 65536) }
    ensures { buf.new ≡ pasted buf.old at (two_bytes value) }
{
    buf[at] = (value % 256) as u8;
    buf[at + 1] = (value / 256) as u8;
}

// Writes `value` at index `at` as `size` bytes, the low one first.
fn put_low_first(buf: &mut [u8], at: usize, size: usize, value: usize)
    requires { at + size ≤ length buf.old }
    ensures { buf.new ≡ pasted buf.old at (low_first size value) }
{
    let mut rest = value;
    let mut j = 0;
    while j < size {
        buf[at + j] = (rest % 256) as u8;
        rest = rest / 256;
        j += 1;
    }
}

// The same as four bytes.
pub fn put_u32(buf: &mut [u8], at: usize, value: usize)
    requires { at + 4 ≤ length buf.old }
    ensures { buf.new ≡ pasted buf.old at (low_first 4 value) }
{
    put_low_first(buf, at, 4, value);
}

// The same as eight bytes.
pub fn put_u64(buf: &mut [u8], at: usize, value: usize)
    requires { at + 8 ≤ length buf.old }
    ensures { buf.new ≡ pasted buf.old at (low_first 8 value) }
{
    put_low_first(buf, at, 8, value);
}

// The byte at a position; past the end it reads as 0.
pub fn byte_at(s: &[u8], at: usize) -> u8
    ensures { result ≡ get_or s.now at 0 }
{
    if at < s.len() {
        return s[at];
    }
    0
}

// The two-byte number at a position, the low byte first.
pub fn two_at(s: &[u8], at: usize) -> usize
    requires { at + 1 < 2 ^ 64 }
    ensures { result ≡ two_at s.now at }
{
    byte_at(s, at) as usize + 256 * (byte_at(s, at + 1) as usize)
}

// The number that four bytes make, the last of them the highest. The compiler reads them at once.
pub fn four_at(s: &[u8], at: usize) -> u64
    requires { at + 4 ≤ length s.now }
    ensures { (result ≡ number_of 4 (λ k. get_or s.now (at + (3 - k)) 0)) × (result < 2 ^ 32) }
{
    ((s[at + 3] as u64 * 256 + s[at + 2] as u64) * 256 + s[at + 1] as u64) * 256 + s[at] as u64
}

// The same of eight bytes.
pub fn eight_at(s: &[u8], at: usize) -> u64
    requires { at + 8 ≤ length s.now }
    ensures { result ≡ number_of 8 (λ k. get_or s.now (at + (7 - k)) 0) }
{
    four_at(s, at + 4) * 4294967296 + four_at(s, at)
}

// The bytes from a position on, `size` of them at most: a part of the slice.
pub fn part(s: &[u8], from: usize, size: usize) -> &[u8]
    ensures { result.now ≡ part s.now from size }
{
    if s.len() < from {
        return &s[..0];
    }
    if s.len() - from <= size {
        return &s[from..];
    }
    &s[from..from + size]
}
