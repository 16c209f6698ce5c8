// halltable: reads a sheet from standard input, and writes its listing, or one line `ER number line layer`.
//
// A refused sheet ends the program with status 1, and so does input that cannot be read, which is told on standard
// error. Nothing is written before the answer is known.
#![tactic(auto)]

use maker::Unanswered;
use sheet::SHEET_LIMIT;
use std::alloc::AllocError;
use std::io::Read;
use std::process::ExitCode;

// One byte more than the longest sheet: enough to know that a sheet is too long.
const READ_LIMIT: u64 = SHEET_LIMIT as u64 + 1;

fn main(rt: HostRuntime) -> anyhow::Result<ExitCode> {
    let heap = rt.alloc();
    let mut sheet = Vec::new(heap);
    rt.stdin().take(READ_LIMIT).read_to_end(&mut sheet)?;
    match maker::answer(heap, sheet.as_slice()) {
        Ok(listing) => {
            rt.stdout().write_all(listing.as_slice())?;
            Ok(ExitCode::SUCCESS)
        }
        Err(Unanswered::Fault(line)) => {
            rt.stdout().write_all(line.as_bytes())?;
            Ok(ExitCode::FAILURE)
        }
        Err(Unanswered::OutOfMemory) => Err(AllocError.into()),
    }
}
