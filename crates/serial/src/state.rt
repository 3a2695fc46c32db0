// What the serial engine keeps, as plain data.
use book::{Kind, MAX_CELLS, SEATS, Seat, Value, Write, WriteSet};
use fixed_vec::FixedVec;

pub type Cells = FixedVec<Value, MAX_CELLS>;

// What the transaction that has the turn is doing.
#[derive(Clone, Copy)]
pub enum Stage {
    Ready,
    Getting { cell: u32 },
    Putting { write: Write },
    Ending,
    // It is ending, and its writes are the latest cells.
    Made,
}

// The transaction that has the turn.
#[derive(Clone, Copy)]
pub struct Turn {
    pub seat: Seat,
    pub kind: Kind,
    pub stage: Stage,
    pub writes: WriteSet,
}

#[derive(Clone, Copy)]
pub struct State {
    pub cells: Cells,
    pub number: u32,
    // The openings that wait for the turn, seat by seat.
    pub waiting: [Option<Kind>; SEATS as usize],
    pub turn: Option<Turn>,
}
