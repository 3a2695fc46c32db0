ghost use Rattle.std.specs.Prelude.{◌≡◌};
ghost use Rattle.sheet.specs.LineErrors.{OnReading};
ghost use Rattle.sheet.specs.Readings.{ReadsCall, ReadsCallLine};
ghost use Rattle.sheet.specs.Texts.{call_letter};

use crate::error::LineError;
use crate::line::LineReader;
use book::{Call, Kind};

// The letter that the call's line begins with.
pub fn call_letter(call: &Call) -> char
    ensures { result ≡ call_letter call.now }
{
    match call {
        Call::Open {
            kind: Kind::Reader,
            ..
        } => 'r',
        Call::Open {
            kind: Kind::Writer,
            ..
        } => 'w',
        Call::Get { .. } => 'g',
        Call::Put { .. } => 'p',
        Call::End { .. } => 'e',
        Call::Step { .. } => 's',
    }
}

// The call that a line with this letter and these numbers writes, if it writes one.
fn call_of(letter: char, numbers: &[u32]) -> Option<Call>
    ensures { ReadsCall letter numbers.now result }
{
    match (letter, numbers) {
        ('r', [seat]) => Some(Call::Open {
            kind: Kind::Reader,
            seat: *seat,
        }),
        ('w', [seat]) => Some(Call::Open {
            kind: Kind::Writer,
            seat: *seat,
        }),
        ('g', [seat, cell]) => Some(Call::Get {
            seat: *seat,
            cell: *cell,
        }),
        ('p', [seat, cell, value]) => Some(Call::Put {
            seat: *seat,
            cell: *cell,
            value: *value,
        }),
        ('e', [seat]) => Some(Call::End { seat: *seat }),
        ('s', [seat]) => Some(Call::Step { seat: *seat }),
        _ => None,
    }
}

impl LineReader<'_> {
    // Reads the call on the next line.
    pub(crate) fn read_call(&mut self) -> Result<Call, LineError>
        ensures { OnReading result (λ o. ReadsCallLine self.old.cursor self.new.cursor o) }
    {
        let letter = self.read_line()?;
        call_of(letter, self.numbers.as_slice()).ok_or(LineError::Unreadable)
    }
}
