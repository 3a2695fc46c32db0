ghost use Rattle.std.specs.Prelude.{◌≡◌, length, ◌==◌};
ghost use Rattle.sheet.specs.Places.{AtStart, rest};

use super::Cursor;

impl<'a> Cursor<'a> {
    // The first place of a sheet.
    pub fn new(sheet: &'a [u8]) -> Cursor<'a>
        ensures { AtStart sheet.now result }
    {
        Cursor {
            sheet,
            place: 0,
            line: 1,
        }
    }

    // How many bytes are still to be read.
    fn left(&self) -> usize
        ensures { result ≡ length (rest self.now) }
    {
        self.sheet.len() - self.place
    }

    pub fn at_end(&self) -> bool
        ensures { result ≡ (length (rest self.now) == 0) }
    {
        self.left() == 0
    }

    // The number of the line that the place is on, counted from 1.
    pub fn line(&self) -> usize
        ensures { result ≡ self.now.line }
    {
        self.line
    }
}
