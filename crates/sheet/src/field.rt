ghost use Rattle.std.specs.Prelude.{◌≡◌, ◌≤◌, length};
ghost use Rattle.sheet.specs.Fields.{separator, word_length};

// One field of a line, as its bytes in the sheet. A single byte that is no digit is a letter; any other field has to be
// a number.
#[derive(Clone, Copy)]
pub enum Field<'a> {
    Letter(&'a [u8]),
    Number(&'a [u8]),
}

// Whether the byte is a space or a line feed, which end a field.
fn is_separator(b: u8) -> bool
    ensures { result ≡ separator b }
{
    b == b' ' || b == b'\n'
}

// How many bytes the word at the front has: those before the next space or line feed, or all of them.
pub(crate) fn word_len(bytes: &[u8]) -> usize
    ensures within { result ≤ length bytes.now }
    ensures value { result ≡ word_length bytes.now }
{
    bytes.iter().take_while(|b| !is_separator(**b)).count()
}
