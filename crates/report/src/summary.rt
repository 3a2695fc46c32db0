ghost use Rattle.std.specs.Prelude.{◌≡◌, ◌++◌, IfOk, string_bytes, OnOk};
ghost use Rattle.sheet.specs.Outcomes.{content};
ghost use Rattle.report.specs.Summaries.{calls_with, row_text, summary_text};

use book::Call;
use sheet::{Sheet, call_letter};
use std::alloc::{AllocError, Global};

// How many of the calls have this letter.
fn count(calls: &[Call], letter: char) -> usize
    ensures { result ≡ calls_with letter calls.now }
{
    calls
        .iter()
        .filter(|call| call_letter(call) == letter)
        .count()
}

// Adds one row, a label and a number, to the text.
fn push_row(text: &mut String, label: &str, n: usize) -> Result<(), AllocError>
    ensures { OnOk result (string_bytes text.new ≡ string_bytes text.old ++ row_text label.now n) }
{
    writeln!(text, "{label} {n}")
}

// What a readable sheet holds, in ten rows.
pub(crate) fn summary(heap: Global, sheet: &Sheet) -> Result<String, AllocError>
    ensures { IfOk result (λ t. string_bytes t ≡ summary_text (content sheet.now)) }
{
    let engine = sheet.heading.engine;
    let calls = sheet.calls.as_slice();
    let mut text = format!(in heap; "engine {engine}\n")?;
    push_row(&mut text, "version", sheet.heading.version as usize)?;
    push_row(&mut text, "cells", sheet.heading.cells.len())?;
    push_row(&mut text, "calls", calls.len())?;
    push_row(&mut text, "openings of readers", count(calls, 'r'))?;
    push_row(&mut text, "openings of writers", count(calls, 'w'))?;
    push_row(&mut text, "gets", count(calls, 'g'))?;
    push_row(&mut text, "puts", count(calls, 'p'))?;
    push_row(&mut text, "ends", count(calls, 'e'))?;
    push_row(&mut text, "steps", count(calls, 's'))?;
    Ok(text)
}
