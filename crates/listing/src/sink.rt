// Where the bytes of a listing go: a counter of them, or a writer into a buffer.
ghost use Rattle.std.specs.Prelude.{◌≡◌, ℕ, ◌+◌, ◌≤◌, List, length, decimal, SomeIff};
ghost use Rattle.listing.specs.Laws.{Lawful};
ghost use Rattle.listing.specs.Sinks.{counted, wrote};
ghost use Rattle.listing.specs.Proved.{counted_lawful, wrote_lawful};

use itoa::write_digits;

// A taker of bytes.
pub trait Sink {
    // What it may be after it took some bytes.
    ghost took: { Self → List ℕ → Self → Type 0 };

    // It takes bytes one after the other.
    ghost lawful: { Lawful took };

    // Takes bytes, with constant work for each.
    fn put(&mut self, bytes: &[u8])
        ensures { took self.old bytes.now self.new };

    // Takes a number in decimal, with constant work for each figure. To make its text and `put` that was tried: whole
    // runs of `halltable` cost 3 % more.
    fn put_number(&mut self, n: u32)
        ensures { took self.old (decimal n) self.new };
}

// How many figures a number has.
fn figures(n: u32) -> usize
    ensures { result ≡ length (decimal n) }
{
    n.checked_ilog10().map_or(1, |log| log as usize + 1)
}

// A sink that only counts.
#[derive(Drop)]
pub struct Counter {
    pub len: usize,
}

impl Sink for Counter {
    ghost took = { counted };

    ghost lawful = { counted_lawful };

    fn put(&mut self, bytes: &[u8]) {
        self.len = self.len.wrapping_add(bytes.len());
    }

    fn put_number(&mut self, n: u32) {
        self.len = self.len.wrapping_add(figures(n));
    }
}

// A sink that writes from a place of a buffer on. What finds no room is dropped. The place stands beside the buffer: a slice
// cut at its front would no longer say what was written.
#[derive(Drop)]
pub struct Writer<'a> {
    pub buffer: &'a mut [u8],
    pub at: usize,
}

impl Writer<'_> {
    // The place after so many bytes more, if there is room for them.
    fn place(&self, len: usize) -> Option<usize>
        ensures { SomeIff result (self.now.at + len ≤ length self.now.buffer.now) (self.now.at + len) }
    {
        self.at
            .checked_add(len)
            .filter(|end| *end <= self.buffer.len())
    }
}

impl Sink for Writer<'_> {
    ghost took = { wrote };

    ghost lawful = { wrote_lawful };

    fn put(&mut self, bytes: &[u8]) {
        if let Some(end) = self.place(bytes.len()) {
            self.buffer[self.at..end].copy_from_slice(bytes);
            self.at = end;
        }
    }

    fn put_number(&mut self, n: u32) {
        if let Some(end) = self.place(figures(n)) {
            write_digits(n.into(), self.buffer, end);
            self.at = end;
        }
    }
}
