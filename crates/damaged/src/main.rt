// Damaged sheets, each with the one line that halltable answers for it, held to this program's `stdout`. A test: it
// promises nothing, and only calls `maker::answer`.
#![tactic(auto)]

use maker::Unanswered;
use std::alloc::{AllocError, Global};

// The worked sheet, which is also cut off at every place.
const WORKED: &[u8] = b"ST 4 9\nLG 0 1 2\nLG 1 2 2\nLG 0 2 5\nLG 2 0 9\nEN 4\n";

const SHEETS: [&[u8]; 40] = [
    b"",
    b"S",
    b"st 4 9\n",
    b"\n",
    b"EN 0\n",
    b"ST",
    b"ST4 9\n",
    b"ST ",
    b"ST  4 9\n",
    b"ST 4\n",
    b"ST 4 9",
    b"ST 4 9 \n",
    b"ST 4 9 1\n",
    b"ST 4 9\r\n",
    b"ST 04 9\n",
    b"ST 00 9\n",
    b"ST 123456 9\n",
    b"ST -4 9\n",
    b"ST 4x 9\n",
    b"ST\t4 9\n",
    b"ST 0 0\n",
    b"ST 41 0\n",
    b"ST 4 0\n",
    b"ST 4 4096\n",
    b"ST 41 9",
    b"ST 41 09\n",
    b"ST 41 9\nXX",
    b"ST 4 9\n",
    b"ST 4 9\nST 4 9\n",
    b"ST 4 9\nLN 0 1 2\n",
    b"ST 4 9\nLG 0 1\n",
    b"ST 4 9\nLG 4 0 99\n",
    b"ST 4 9\nLG 0 4 10\n",
    b"ST 4 9\nLG 0 1 10\n",
    b"ST 4 9\nLG 0 1 2\nEN 0\n",
    b"ST 4 9\nEN 1\nX",
    b"ST 4 9\nEN 0\nX",
    b"ST 4 9\nEN 0\n\n",
    b"ST 4 9\nEN 00\n",
    b"ST 4 9\nLG 0 \xff 2\n",
];

// What halltable answers in one line.
fn tell(rt: &HostRuntime, heap: Global, sheet: &[u8]) -> anyhow::Result<()> {
    match maker::answer(heap, sheet) {
        Ok(listing) => {
            let bytes = listing.len();
            println!(rt; "a listing of {bytes} bytes")?;
            Ok(())
        }
        Err(Unanswered::Fault(line)) => {
            rt.stdout().write_all(line.as_bytes())?;
            Ok(())
        }
        Err(Unanswered::OutOfMemory) => Err(AllocError.into()),
    }
}

// A sheet of one point and as many legs as told.
fn long_sheet(heap: Global, legs: u32, last: &[u8]) -> anyhow::Result<Vec<u8>> {
    let mut sheet = Vec::new(heap);
    sheet.extend_from_slice(b"ST 1 1\n")?;
    for _ in 0..legs {
        sheet.extend_from_slice(b"LG 0 0 0\n")?;
    }
    sheet.extend_from_slice(last)?;
    Ok(sheet)
}

fn main(rt: HostRuntime) -> anyhow::Result<()> {
    let heap = rt.alloc();
    for sheet in SHEETS {
        tell(&rt, heap, sheet)?;
    }
    for len in 0..=WORKED.len() {
        tell(&rt, heap, &WORKED[0..len])?;
    }
    let full = long_sheet(heap, 1_600, b"EN 1600\n")?;
    tell(&rt, heap, full.as_slice())?;
    let over = long_sheet(heap, 1_601, b"")?;
    tell(&rt, heap, over.as_slice())?;
    let costly = long_sheet(heap, 1_600, b"LG 0 0 2\n")?;
    tell(&rt, heap, costly.as_slice())?;
    let longest = vec![in heap; b'X'; 32_768]?;
    tell(&rt, heap, longest.as_slice())?;
    let too_long = vec![in heap; b'X'; 32_769]?;
    tell(&rt, heap, too_long.as_slice())
}
