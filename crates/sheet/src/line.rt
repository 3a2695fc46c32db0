ghost use Rattle.std.specs.Prelude.{is_some};
ghost use Rattle.sheet.specs.LineErrors.{OnReading};
ghost use Rattle.sheet.specs.Lines.{FieldEnds, ReadsLine, ReadsOperand, ReadsOperands};
ghost use Rattle.sheet.specs.Places.{AtStart, rest};

use crate::cursor::Cursor;
use crate::error::LineError;
use crate::field::Field;
use crate::numeral::number;
use std::alloc::{AllocError, Global};

// The number that follows one space, or none where something else does.
fn operand(cursor: &mut Cursor) -> Option<u32>
    ensures { ReadsOperand cursor.old cursor.new result }
{
    if !cursor.space() {
        return None;
    }
    match cursor.field()? {
        Field::Number(digits) => number(digits),
        Field::Letter(_) => None,
    }
}

// Reads a sheet line by line, and holds the numbers of the line that was read last.
#[derive(Drop)]
pub(crate) struct LineReader<'a> {
    pub(crate) cursor: Cursor<'a>,
    pub(crate) numbers: Vec<u32>,
    pub(crate) heap: Global,
}

impl<'a> LineReader<'a> {
    pub(crate) fn new(heap: Global, sheet: &'a [u8]) -> LineReader<'a>
        ensures { AtStart sheet.now result.cursor }
    {
        LineReader {
            cursor: Cursor::new(sheet),
            numbers: Vec::new(heap),
            heap,
        }
    }

    // Reads the numbers that follow, each after one space, up to the line feed.
    fn operands(&mut self) -> Result<(), LineError>
        requires { FieldEnds (rest self.old.cursor) }
        ensures { OnReading result (λ o. ReadsOperands self.old.cursor self.new.cursor (is_some o) self.new.numbers.items) }
    {
        self.numbers.clear();
        while !self.cursor.line_feed() {
            let n = operand(&mut self.cursor).ok_or(LineError::Unreadable)?;
            self.numbers.push(n).map_err(AllocError::from)?;
        }
        Ok(())
    }

    // Reads the next line, and answers its letter.
    pub(crate) fn read_line(&mut self) -> Result<char, LineError>
        ensures { OnReading result (λ o. ReadsLine self.old.cursor self.new.cursor o self.new.numbers.items) }
    {
        let Some(Field::Letter(letter)) = self.cursor.field() else {
            return Err(LineError::Unreadable);
        };
        let letter = char::from(letter[0]);
        self.operands()?;
        Ok(letter)
    }
}
