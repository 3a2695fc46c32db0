ghost use Rattle.std.specs.Prelude.{◌≡◌, IfOk, string_bytes};
ghost use Rattle.sheet.specs.Outcomes.{Outcome, Reads};
ghost use Rattle.report.specs.Answers.{outcome_text, refusal_text};

use crate::summary::summary;
use book::Refusal;
use sheet::ReadError;
use std::alloc::{AllocError, Global};

// One line: the word `no`, the refusal's number and, for an unreadable line, the number of the line.
fn declined(heap: Global, refusal: Refusal) -> Result<String, AllocError>
    ensures { IfOk result (λ t. string_bytes t ≡ refusal_text refusal) }
{
    let number = refusal.number();
    match refusal {
        Refusal::UnreadableLine { line } => format!(in heap; "no {number} {line}\n"),
        _ => format!(in heap; "no {number}\n"),
    }
}

// What the program prints for a sheet with these bytes.
pub fn of_sheet(heap: Global, bytes: &[u8]) -> Result<String, AllocError>
    ensures { IfOk result (λ t. (o : Outcome) × Reads bytes.now o × (string_bytes t ≡ outcome_text o)) }
{
    match sheet::read(heap, bytes) {
        Ok(sheet) => summary(heap, &sheet),
        Err(ReadError::Declined(refusal)) => declined(heap, refusal),
        Err(ReadError::NoMemory) => Err(AllocError),
    }
}
