ghost use Rattle.std.specs.Prelude.{◌≡◌};
ghost use Rattle.sheet.specs.declared.error.LineError.TheVariants.{Unreadable};
ghost use Rattle.sheet.specs.LineErrors.{OnReading};
ghost use Rattle.sheet.specs.Readings.{ReadsHeadingLine};

use super::{EngineChoice, Heading, UnknownEngine};
use crate::error::LineError;
use crate::line::LineReader;

impl From<UnknownEngine> for LineError {
    ghost from_gives = { λ _ e. e ≡ Unreadable };

    fn from(_e: UnknownEngine) -> LineError {
        LineError::Unreadable
    }
}

impl LineReader<'_> {
    // Reads the heading on the next line.
    pub(crate) fn read_heading(&mut self) -> Result<Heading, LineError>
        ensures { OnReading result (λ o. ReadsHeadingLine self.old.cursor self.new.cursor o) }
    {
        let letter = self.read_line()?;
        let engine = EngineChoice::try_from(letter)?;
        let [version, cells @ ..] = self.numbers.as_slice() else {
            return Err(LineError::Unreadable);
        };
        let cells = Vec::from_slice(self.heap, cells)?;
        Ok(Heading {
            engine,
            version: *version,
            cells,
        })
    }
}
