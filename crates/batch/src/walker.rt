// A batch and a position in it.
ghost use Rattle.std.specs.Prelude.{◌≡◌};
ghost use Rattle.batch.specs.Walk.{entry_span_at, moved_on};

use crate::{EntrySpan, span_at};

// 01: "A walk over a bundle remembers the bundle and its position".
#[derive(Clone, Copy)]
pub struct Walker<'a> {
    pub src: &'a [u8],
    pub at: usize,
}

impl<'a> Walker<'a> {
    // Where the entry at the walker's position starts and ends; the walker goes on to the next.
    pub fn step(&mut self) -> EntrySpan
        ensures entry { result ≡ entry_span_at self.old.src.now self.old.at }
        ensures next { self.new ≡ moved_on self.old }
    {
        let span = span_at(self.src, self.at);
        self.at = span.end;
        span
    }
}

// Where the entry at a walker's position starts and ends.
pub fn span<'a>(w: Walker<'a>) -> EntrySpan
    ensures { result ≡ entry_span_at w.entry.src.now w.entry.at }
{
    let mut here = w;
    here.step()
}

// At the next entry.
pub fn advance<'a>(w: Walker<'a>) -> Walker<'a>
    ensures { result ≡ moved_on w.entry }
{
    let mut next = w;
    next.step();
    next
}

// The step of a walker at a position of a batch: the entry starts where `step` says, and ends where the walker goes on.
pub fn walk_entry(batch: &[u8], at: usize) -> EntrySpan
    ensures { result ≡ entry_span_at batch.now at }
{
    let mut walker = Walker { src: batch, at };
    let start = walker.step().start;
    EntrySpan {
        start,
        end: walker.at,
    }
}
