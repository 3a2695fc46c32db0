ghost use Rattle.serial.specs.States.{meaning_of};
ghost use Rattle.serial.specs.Laws.{seats_sized, someone_moves, sound_of};

use crate::serial::Serial;
use crate::state::{Cells, Stage};
use book::{Call, Engine, Kind, MAX_CELLS, Refusal, Seat, Standing, Value, Word, Write};

impl Engine for Serial {
    const BOUND: u32 = 2;

    ghost BOUND = { 2 };

    ghost meaning = { λ e. meaning_of e.state };

    ghost progress = { λ e. someone_moves e.state (sound_of e) };

    ghost sized = { λ e. seats_sized e.state e.seats };

    fn start(version: u32, cells: &[Value]) -> Result<Serial, Refusal> {
        if cells.is_empty() || cells.len() > MAX_CELLS {
            return Err(Refusal::CellCount);
        }
        if version % 2 == 0 {
            return Err(Refusal::EvenVersion);
        }
        // The cells fit, as their count was tested.
        match Cells::from_slice(cells, 0) {
            Ok(cells) => Ok(Serial::with_cells(version / 2, cells)),
            Err(_) => unreachable(),
        }
    }

    fn open(&mut self, kind: Kind, seat: u32) -> Result<(), Refusal> {
        let seat = self.allow(Call::Open { kind, seat })?;
        self.wait_for_turn(kind, seat);
        Ok(())
    }

    fn get(&mut self, seat: u32, cell: u32) -> Result<(), Refusal> {
        let seat = self.allow(Call::Get { seat, cell })?;
        self.ask(seat, Stage::Getting { cell });
        Ok(())
    }

    fn put(&mut self, seat: u32, cell: u32, value: Value) -> Result<(), Refusal> {
        let seat = self.allow(Call::Put { seat, cell, value })?;
        let write = Write { cell, value };
        self.ask(seat, Stage::Putting { write });
        Ok(())
    }

    fn end(&mut self, seat: u32) -> Result<(), Refusal> {
        let seat = self.allow(Call::End { seat })?;
        self.ask(seat, Stage::Ending);
        Ok(())
    }

    fn step(&mut self, seat: u32) -> Result<(Word, u32), Refusal> {
        let seat = self.allow(Call::Step { seat })?;
        // A copy, since the arms change the engine.
        let turn = self.state.turn;
        match turn {
            None => Ok(self.first_step(seat)),
            Some(turn) if turn.seat == seat => Ok(self.step_of_turn(turn)),
            Some(_) => Ok((Word::Wait, 0)),
        }
    }

    fn number(&self) -> u32 {
        self.state.number
    }

    fn cell_count(&self) -> usize {
        self.state.cells.len()
    }

    fn latest(&self, cell: u32) -> Result<Value, Refusal> {
        self.value_at(cell).ok_or(Refusal::NoSuchCell)
    }

    fn kind(&self, seat: u32) -> Result<Option<Kind>, Refusal> {
        let seat = Seat::try_from(seat)?;
        Ok(self.state.kind_in(seat))
    }

    fn standing(&self, seat: u32) -> Result<Standing, Refusal> {
        let seat = Seat::try_from(seat)?;
        Ok(self.state.standing_in(seat))
    }
}
