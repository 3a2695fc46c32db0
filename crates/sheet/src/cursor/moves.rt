ghost use Rattle.std.specs.Prelude.{◌≡◌, if◌then◌else◌};
ghost use Rattle.sheet.specs.Fields.{ReadsField, starts_with, word_length};
ghost use Rattle.sheet.specs.Places.{rest, Moved};

use super::Cursor;
use crate::field::{Field, word_len};

impl<'a> Cursor<'a> {
    // Goes on past the byte, if it is next. The line stays: a caller that passes a line feed counts it.
    fn pass(&mut self, byte: u8) -> bool
        ensures found { result ≡ starts_with byte (rest self.old) }
        ensures moved { Moved self.old self.new (if result then 1 else 0) 0 }
    {
        let found = self.sheet.get(self.place) == Some(&byte);
        if found {
            self.place += 1;
        }
        found
    }

    // Goes on past a space, if one is next.
    pub fn space(&mut self) -> bool
        ensures found { result ≡ starts_with 32 (rest self.old) }
        ensures moved { Moved self.old self.new (if result then 1 else 0) 0 }
    {
        self.pass(b' ')
    }

    // Goes on to the next line, if a line feed is next.
    pub fn line_feed(&mut self) -> bool
        ensures found { result ≡ starts_with 10 (rest self.old) }
        ensures moved { Moved self.old self.new (if result then 1 else 0) (if result then 1 else 0) }
    {
        let found = self.pass(b'\n');
        if found {
            self.line += 1;
        }
        found
    }

    // Goes on past the field that is next, if one is.
    pub fn field(&mut self) -> Option<Field<'a>>
        ensures found { ReadsField (rest self.old) result }
        ensures moved { Moved self.old self.new (word_length (rest self.old)) 0 }
    {
        let left = &self.sheet[self.place..];
        let word = &left[..word_len(left)];
        self.place += word.len();
        match word {
            [] => None,
            [b] if !b.is_ascii_digit() => Some(Field::Letter(word)),
            _ => Some(Field::Number(word)),
        }
    }
}
