ghost use Rattle.std.specs.Prelude.{◌≡◌, [], length, ◌==◌, nat_le};
ghost use Rattle.book.specs.Sizes.{max_writes};
ghost use Rattle.book.specs.WriteSets.{Position, Puts, entries, lacks_room};
ghost use Rattle.book.specs.Writes.{written};

use super::{MAX_WRITES, WriteSet};
use crate::call::Value;
use crate::refusal::Refusal;
use crate::write::Write;
use fixed_vec::FixedVec;
use lookup::{Entry, last_match};

// A write is looked up by its cell.
impl Entry for Write {
    type Question = u32;

    ghost suits = { λ w cell. (w.cell == cell) };

    fn suits(&self, cell: &u32) -> bool {
        self.cell == *cell
    }
}

impl WriteSet {
    pub fn empty() -> WriteSet
        ensures { entries result ≡ [] }
    {
        WriteSet {
            writes: FixedVec::new(Write { cell: 0, value: 0 }),
        }
    }

    pub fn as_slice(&self) -> &[Write]
        ensures { result.now ≡ entries self.now }
    {
        self.writes.as_slice()
    }

    // Where the cell's entry stands, if the cell was put.
    fn position(&self, cell: u32) -> Option<usize>
        ensures { Position cell (entries self.now) result }
    {
        last_match(self.as_slice(), &cell)
    }

    // The value put to the cell, if one was.
    pub fn get(&self, cell: u32) -> Option<Value>
        ensures { result ≡ written cell (entries self.now) }
    {
        let found = self.position(cell)?;
        Some(self.as_slice()[found].value)
    }

    fn is_full(&self) -> bool
        ensures { result ≡ nat_le max_writes (length (entries self.now)) }
    {
        self.writes.len() == MAX_WRITES
    }

    // Whether a put of the cell would be one cell too many.
    pub fn is_full_for(&self, cell: u32) -> bool
        ensures { result ≡ lacks_room cell (entries self.now) }
    {
        self.get(cell).is_none() && self.is_full()
    }

    // Adds a put, if there is room for its cell.
    pub fn put(&mut self, write: Write) -> Result<(), Refusal>
        ensures { Puts write (entries self.old) (entries self.new) result }
    {
        if let Some(found) = self.position(write.cell) {
            self.writes.set(found, write);
            return Ok(());
        }
        self.writes.push(write).or(Err(Refusal::WriteSetFull))
    }
}
