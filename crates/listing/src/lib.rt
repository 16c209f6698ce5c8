// The listing writer: a table of values to bytes.
//
// A listing is `TB n`, then for each pair, row by row, `PR u v value` or `NO u v`, then `EN` and the number of PR
// lines, each with a line end. It promises these bytes, at the front of a buffer, whose rest is left alone, or in memory
// of their own. It only asks a table for its values, and knows nothing of how it is made.
#![tactic(auto)]

ghost use Rattle.std.specs.Prelude.{◌≡◌, ℕ, ◌+◌, ◌<◌, ◌≤◌, ◌^◌, ◌∷◌, ◌++◌, length, drop, IfOk, decimal, Option};
ghost use Rattle.listing.specs.Buffer.{written, Writes};
ghost use Rattle.listing.specs.Listing.{fields, line, pair_line, has, row, rows, found_from, found_pairs, listing};

mod sink;

use sink::{Counter, Sink, Writer};
use std::alloc::{AllocError, Global};

// A table of the values of pairs of points. An implementation says what it holds by `size` and `cell`, for every two
// numbers, and shows that it is small.
pub trait Table {
    // The number of points.
    ghost size: { Self → ℕ };

    // The value of the pair from one point to another, if it has one.
    ghost cell: { Self → ℕ → ℕ → Option ℕ };

    // There are few points.
    ghost few: { (table : Self) → size table ≤ 40 };

    // The number of points.
    fn points(&self) -> usize
        ensures { result ≡ size self.now };

    // The value of a pair, if it has one.
    fn value(&self, from: usize, to: usize) -> Option<u32>
        ensures { result ≡ cell self.now from to };
}

// The buffer is too short, and nothing was written.
#[derive(Clone, Copy, PartialEq, Eq, Debug)]
pub struct TooShort;

// Puts a field of a line.
fn put_field<S: Sink>(sink: &mut S, n: u32)
    ensures { S.took sink.old (32 ∷ decimal n) sink.new }
{
    sink.put(b" ");
    sink.put_number(n);
}

// Puts a line.
fn put_line<S: Sink>(sink: &mut S, mark: &[u8; 2], numbers: &[u32])
    ensures { S.took sink.old (line mark.now numbers.now) sink.new }
{
    sink.put(mark);
    for n in numbers {
        put_field(sink, *n);
    }
    sink.put(b"\n");
}

// Puts the line of a pair.
fn put_pair<S: Sink>(sink: &mut S, from: u32, to: u32, value: Option<u32>)
    ensures { S.took sink.old (pair_line from to value) sink.new }
{
    match value {
        Some(least) => put_line(sink, b"PR", &[from, to, least]),
        None => put_line(sink, b"NO", &[from, to]),
    }
}

// Puts the lines of the pairs from one point, and answers how many have a value. Over numbers: a table answers by points alone.
fn put_row<T: Table, S: Sink>(table: &T, from: usize, sink: &mut S) -> u32
    requires { from < T.size table.now }
    ensures items { result ≡ found_from (T.size table.now) (T.cell table.now) from }
    ensures after { S.took sink.old (row (T.size table.now) (T.cell table.now) from) sink.new }
{
    let mut found = 0;
    for to in 0..table.points() {
        let value = table.value(from, to);
        put_pair(sink, from as u32, to as u32, value);
        found += u32::from(value.is_some());
    }
    found
}

// Puts the lines of all pairs, and answers how many have a value. Over numbers, as above.
fn put_rows<T: Table, S: Sink>(table: &T, sink: &mut S) -> u32
    ensures items { result ≡ found_pairs (T.size table.now) (T.cell table.now) }
    ensures after { S.took sink.old (rows (T.size table.now) (T.cell table.now)) sink.new }
{
    let mut found = 0;
    for from in 0..table.points() {
        found += put_row(table, from, sink);
    }
    found
}

// Puts the listing of a table.
fn put_listing<T: Table, S: Sink>(table: &T, sink: &mut S)
    ensures bound { length (listing (T.size table.now) (T.cell table.now)) < 2 ^ 32 }
    ensures after { S.took sink.old (listing (T.size table.now) (T.cell table.now)) sink.new }
{
    put_line(sink, b"TB", &[table.points() as u32]);
    let found = put_rows(table, sink);
    put_line(sink, b"EN", &[found]);
}

// How many bytes the listing of a table has. Asks for each pair's value once, with constant work for each figure.
pub fn length<T: Table>(table: &T) -> usize
    ensures { result ≡ length (listing (T.size table.now) (T.cell table.now)) }
{
    let mut counter = Counter { len: 0 };
    put_listing(table, &mut counter);
    counter.len
}

// Writes the listing of a table at the front of a buffer that has room for it.
fn write_front<T: Table>(table: &T, buffer: &mut [u8])
    requires { length (listing (T.size table.now) (T.cell table.now)) ≤ length buffer.old }
    ensures after { buffer.new ≡ listing (T.size table.now) (T.cell table.now) ++ drop (length (listing (T.size table.now) (T.cell table.now))) buffer.old }
{
    let mut writer = Writer { buffer, at: 0 };
    put_listing(table, &mut writer);
}

// Writes the listing of a table at the front of the buffer, and answers its length; the rest of the buffer stays.
// A buffer that is too short is refused, and then all of it stays. Asks for each pair's value twice, first for the
// length and then to write, with constant work for each figure.
pub fn write<T: Table>(table: &T, buffer: &mut [u8]) -> Result<usize, TooShort>
    ensures cases { Writes (listing (T.size table.now) (T.cell table.now)) buffer.old result buffer.new }
{
    let len = length(table);
    if buffer.len() < len {
        return Err(TooShort);
    }
    write_front(table, buffer);
    Ok(len)
}

// The listing of a table, in memory of its own. Costs what `write` does. Refused only for want of memory.
pub fn bytes<T: Table>(heap: Global, table: &T) -> Result<Vec<u8>, AllocError>
    ensures made { IfOk result (λ v. v.items ≡ listing (T.size table.now) (T.cell table.now)) }
{
    let mut bytes = vec![in heap; 0u8; length(table)]?;
    write_front(table, bytes.as_mut_slice());
    Ok(bytes)
}
