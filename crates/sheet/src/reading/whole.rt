ghost use Rattle.std.specs.Prelude.{◌≡◌, length, MatchResult, ◌==◌, nat_lt};
ghost use Rattle.sheet.specs.CallLists.{AllCalls, StopsCalls};
ghost use Rattle.sheet.specs.Laws.{ReadingLaws};
ghost use Rattle.sheet.specs.Limits.{max_bytes, max_calls};
ghost use Rattle.sheet.specs.Outcomes.{Fails, Reads, content, readable};
ghost use Rattle.sheet.specs.Places.{rest};

use super::Sheet;
use crate::error::ReadError;
use crate::line::LineReader;
use book::{Call, Refusal};
use std::alloc::Global;

const MAX_BYTES: usize = 16_384;

const MAX_CALLS: usize = 1024;

fn too_long(bytes: &[u8]) -> bool
    ensures { result ≡ nat_lt max_bytes (length bytes.now) }
{
    bytes.len() > MAX_BYTES
}

fn is_full(calls: &[Call]) -> bool
    ensures { result ≡ (length calls.now == max_calls) }
{
    calls.len() == MAX_CALLS
}

// Reads a sheet from its first byte to its last.
pub fn read(heap: Global, bytes: &[u8]) -> Result<Sheet, ReadError>
    ensures outcome { MatchResult result (λ s. Reads bytes.now (readable (content s))) (λ e. Fails bytes.now e) }
    ensures laws { ReadingLaws }
{
    if too_long(bytes) {
        return Err(ReadError::Declined(Refusal::SheetTooLong));
    }
    let mut lines = LineReader::new(heap, bytes);
    let heading = lines.read_heading().map_err(|e| e.on_line(1))?;
    let calls = lines.read_calls()?;
    Ok(Sheet { heading, calls })
}

impl LineReader<'_> {
    // Reads the calls on the lines that are left, one a line.
    fn read_calls(&mut self) -> Result<Vec<Call>, ReadError>
        ensures { MatchResult result (λ v. AllCalls (rest self.old.cursor) v.items) (λ e. StopsCalls (rest self.old.cursor) self.old.cursor.line e) }
    {
        let mut calls = Vec::new(self.heap);
        while !self.cursor.at_end() {
            if is_full(&calls) {
                return Err(ReadError::Declined(Refusal::SheetTooLong));
            }
            let line = self.cursor.line();
            let call = self.read_call().map_err(|e| e.on_line(line))?;
            calls.push(call)?;
        }
        Ok(calls)
    }
}
