// What the engine's state becomes and what is answered, move by move.
ghost use Rattle.std.specs.Prelude.{◌≡◌, ◌+◌, ◌<◌};
ghost use Rattle.std.specs.Option.{unwrap_or};
ghost use Rattle.book.specs.declared.answer.Word.TheVariants.{Ended, Made, Opened, Put, Told};
ghost use Rattle.book.specs.Sizes.{max_number};
ghost use Rattle.book.specs.Writes.{applied, written};
ghost use Rattle.book.specs.WriteSets.{entries};
ghost use Rattle.serial.specs.declared.state.Stage.TheVariants.{Ready};
ghost use Rattle.serial.specs.Moves.{committed_at, ended_at, ready_turn, taken_at, turn_at};
ghost use Rattle.serial.specs.States.{latest};

use crate::state::{Cells, Stage, State, Turn};
use book::{Kind, Seat, Value, Word, Write, WriteSet};

impl State {
    // The seat, which waited, takes the turn, and its opening is answered.
    pub(crate) fn take_turn(&mut self, seat: Seat, kind: Kind, writes: WriteSet) -> (Word, u32)
        ensures after { self.new ≡ taken_at self.old (record { seat = seat; kind = kind; stage = Ready; writes = writes }) }
        ensures answer { result ≡ (Opened, self.old.number) }
    {
        self.waiting[seat.index()] = None;
        self.turn = Some(Turn {
            seat,
            kind,
            stage: Stage::Ready,
            writes,
        });
        (Word::Opened, self.number)
    }

    // The transaction is told a value: its own put of the cell, else the latest.
    pub(crate) fn tell(&mut self, turn: Turn, cell: u32, latest: Value) -> (Word, u32)
        ensures after { self.new ≡ turn_at self.old (ready_turn turn turn.writes) }
        ensures answer { result ≡ (Told, unwrap_or (written cell (entries turn.writes)) latest) }
    {
        let value = turn.writes.get(cell).unwrap_or(latest);
        self.turn = Some(Turn {
            stage: Stage::Ready,
            ..turn
        });
        (Word::Told, value)
    }

    // The put has joined the transaction's writes.
    pub(crate) fn put(&mut self, turn: Turn, writes: WriteSet) -> (Word, u32)
        ensures after { self.new ≡ turn_at self.old (ready_turn turn writes) }
        ensures answer { result ≡ (Put, 0) }
    {
        self.turn = Some(Turn {
            stage: Stage::Ready,
            writes,
            ..turn
        });
        (Word::Put, 0)
    }

    // The transaction's writes become the latest cells.
    pub(crate) fn commit(&mut self, turn: Turn) -> (Word, u32)
        requires { self.old.number < max_number }
        ensures after { self.new ≡ committed_at self.old self.new.cells turn }
        ensures wrote { latest self.new ≡ applied (entries turn.writes) (latest self.old) }
        ensures rest { self.new.cells.spare ≡ self.old.cells.spare }
        ensures answer { result ≡ (Made, self.old.number + 1) }
    {
        write_all(&mut self.cells, turn.writes.as_slice());
        self.number += 1;
        self.turn = Some(Turn {
            stage: Stage::Made,
            ..turn
        });
        (Word::Made, self.number)
    }

    // The transaction gives up the turn, and its seat is free.
    pub(crate) fn give_up_turn(&mut self, seat: Seat) -> (Word, u32)
        ensures after { self.new ≡ ended_at self.old seat }
        ensures answer { result ≡ (Ended, self.old.number) }
    {
        self.waiting[seat.index()] = None;
        self.turn = None;
        (Word::Ended, self.number)
    }
}

// Writes each value into its cell, as far as the cells go. Of two for one cell the first of the list stays.
fn write_all(cells: &mut Cells, writes: &[Write])
    ensures wrote { cells.new.items ≡ applied writes.now cells.old.items }
    ensures rest { cells.new.spare ≡ cells.old.spare }
{
    for write in writes.iter().rev() {
        cells.set(write.cell as usize, write.value);
    }
}
