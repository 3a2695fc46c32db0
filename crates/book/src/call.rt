// What can be asked of a book. A seat is a place for one transaction; a cell is a place for one value.
ghost use Rattle.std.specs.Prelude.{◌≡◌};
ghost use Rattle.book.specs.Calls.{seat_of};

// What a cell holds.
pub type Value = u32;

// A reader leaves the cells as they are; a writer may put values to them.
#[derive(Clone, Copy, Debug, PartialEq, Eq)]
pub enum Kind {
    Reader,
    Writer,
}

// Seats and cells may be any number here: the book declines those that it lacks.
#[derive(Clone, Copy, Debug, PartialEq, Eq)]
pub enum Call {
    Open { kind: Kind, seat: u32 },
    Get { seat: u32, cell: u32 },
    Put { seat: u32, cell: u32, value: Value },
    End { seat: u32 },
    Step { seat: u32 },
}

impl Call {
    // The seat that the call is on.
    pub fn seat(&self) -> u32
        ensures { result ≡ seat_of self.now }
    {
        match self {
            Call::Open { seat, .. } => *seat,
            Call::Get { seat, .. } => *seat,
            Call::Put { seat, .. } => *seat,
            Call::End { seat } => *seat,
            Call::Step { seat } => *seat,
        }
    }
}
