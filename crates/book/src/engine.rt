// What every engine of a book can do, and what it promises of it by the meaning of its state.
ghost use Rattle.std.specs.Prelude.{◌≡◌, ℕ, length};
ghost use Rattle.book.specs.declared.call.Call.TheVariants.{End, Get, Open, Put};
ghost use Rattle.book.specs.Engines.{Answers, Asks, Starts, latest_cell, seat_kind, seat_standing};
ghost use Rattle.book.specs.Meaning.{Meaning};
ghost use Rattle.book.specs.Progress.{SomeBusyMoves};
ghost use Rattle.book.specs.Sizes.{seat_count};

use crate::answer::{Standing, Word};
use crate::call::{Kind, Value};
use crate::refusal::Refusal;

// Seats are numbered from 0.
pub const SEATS: u32 = 8;

// A book has at least one cell and at most this many.
pub const MAX_CELLS: usize = 64;

// The largest number of the latest cells.
pub const MAX_NUMBER: u32 = 2_147_483_647;

pub trait Engine: Sized {
    // The most steps, but for those that wait, that one request takes.
    const BOUND: u32;

    ghost BOUND: { ℕ };

    ghost meaning: { Self → Meaning };

    fn step_bound() -> u32
        ensures { result ≡ BOUND }
    {
        Self::BOUND
    }

    fn start(version: u32, cells: &[Value]) -> Result<Self, Refusal>
        ensures { Starts meaning version cells.now result };

    fn open(&mut self, kind: Kind, seat: u32) -> Result<(), Refusal>
        ensures { Asks BOUND (meaning self.old) (Open kind seat) (meaning self.new) (self.new ≡ self.old) result };

    fn get(&mut self, seat: u32, cell: u32) -> Result<(), Refusal>
        ensures { Asks BOUND (meaning self.old) (Get seat cell) (meaning self.new) (self.new ≡ self.old) result };

    fn put(&mut self, seat: u32, cell: u32, value: Value) -> Result<(), Refusal>
        ensures { Asks BOUND (meaning self.old) (Put seat cell value) (meaning self.new) (self.new ≡ self.old) result };

    fn end(&mut self, seat: u32) -> Result<(), Refusal>
        ensures { Asks BOUND (meaning self.old) (End seat) (meaning self.new) (self.new ≡ self.old) result };

    // One step of a busy seat: a word with its number.
    fn step(&mut self, seat: u32) -> Result<(Word, u32), Refusal>
        ensures { Answers (meaning self.old) seat (meaning self.new) (self.new ≡ self.old) result };

    // How many commits lead to the latest cells.
    fn number(&self) -> u32
        ensures { result ≡ (meaning self.now).number };

    fn cell_count(&self) -> usize
        ensures { result ≡ length (meaning self.now).cells };

    fn latest(&self, cell: u32) -> Result<Value, Refusal>
        ensures { result ≡ latest_cell (meaning self.now) cell };

    // The kind of a seat's transaction; none where the seat is free.
    fn kind(&self, seat: u32) -> Result<Option<Kind>, Refusal>
        ensures { result ≡ seat_kind (meaning self.now) seat };

    fn standing(&self, seat: u32) -> Result<Standing, Refusal>
        ensures { result ≡ seat_standing (meaning self.now) seat };

    ghost progress: { (e : Self) → SomeBusyMoves (meaning e) };

    ghost sized: { (e : Self) → length (meaning e).seats ≡ seat_count };
}
