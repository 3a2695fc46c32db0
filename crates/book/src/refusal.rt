ghost use Rattle.std.specs.Prelude.{◌≡◌};
ghost use Rattle.book.specs.Refusals.{refusal_number};

// Why something is declined. Each refusal has a number, by which a grower looks it up.
#[derive(Clone, Copy, Debug, PartialEq, Eq)]
pub enum Refusal {
    // A start with no cells, or with more than a book may have.
    CellCount,
    EvenVersion,
    NoSuchSeat,
    // The house lets this seat read only.
    ReadOnlySeat,
    SeatNotFree,
    // The numbers that are left are spoken for by open writers.
    NumbersUsedUp,
    SeatFree,
    SeatBusy,
    NoSuchCell,
    // A reader puts nothing.
    PutByReader,
    // It would be one cell more than a write set may have.
    WriteSetFull,
    SeatReady,
    // The line with this number, counted from 1, is unreadable.
    UnreadableLine { line: usize },
    // The sheet has too many bytes or too many calls.
    SheetTooLong,
    // A list that was lent is shorter than the calls.
    ListTooShort,
    // A run begins with all seats free.
    SeatInUse,
}

impl Refusal {
    pub fn number(&self) -> u32
        ensures { result ≡ refusal_number self.now }
    {
        match self {
            Refusal::CellCount => 1,
            Refusal::EvenVersion => 2,
            Refusal::NoSuchSeat => 3,
            Refusal::ReadOnlySeat => 4,
            Refusal::SeatNotFree => 5,
            Refusal::NumbersUsedUp => 6,
            Refusal::SeatFree => 7,
            Refusal::SeatBusy => 8,
            Refusal::NoSuchCell => 9,
            Refusal::PutByReader => 10,
            Refusal::WriteSetFull => 11,
            Refusal::SeatReady => 12,
            Refusal::UnreadableLine { .. } => 13,
            Refusal::SheetTooLong => 14,
            Refusal::ListTooShort => 15,
            Refusal::SeatInUse => 16,
        }
    }
}
