// What the engine does, once it is known that it may.
ghost use Rattle.std.specs.Prelude.{◌≡◌, ◌≤◌, true, false, [], length, is_some, Some, None, slice_get};
ghost use Rattle.book.specs.declared.call.Call.TheVariants.{End, Open, Step};
ghost use Rattle.book.specs.Calls.{has_made, refusal_of};
ghost use Rattle.book.specs.Effects.{Accepts};
ghost use Rattle.book.specs.Sizes.{max_cells, max_number};
ghost use Rattle.fixed_vec.specs.Listed.{places};
ghost use Rattle.serial.specs.Moves.{Asked, fresh, SeatSteps, TurnSteps};
ghost use Rattle.serial.specs.Rooms.{stage_room};
ghost use Rattle.serial.specs.declared.state.Turn.{Turn};
ghost use Rattle.serial.specs.Seats.{turn_of};
ghost use Rattle.serial.specs.States.{latest, meaning_of, stage_request, stage_sight};

use crate::serial::Serial;
use crate::state::{Cells, Stage, State, Turn};
use book::{Kind, SEATS, Seat, Value, Word, WriteSet};

impl Serial {
    // A book with these cells and this number, all of its seats free.
    pub(crate) fn with_cells(number: u32, cells: Cells) -> Serial
        requires whole { length (places cells) ≡ max_cells }
        requires room { number ≤ max_number }
        ensures { meaning_of result.state ≡ fresh number cells.items (meaning_of result.state).waits }
    {
        Serial {
            state: State {
                cells,
                number,
                waiting: [None; SEATS as usize],
                turn: None,
            },
        }
    }

    // The latest value of a cell, if there is such a cell.
    pub(crate) fn value_at(&self, cell: u32) -> Option<Value>
        ensures { result ≡ slice_get (latest self.now.state) cell }
    {
        self.state.cells.as_slice().get(cell as usize).copied()
    }

    // An opening that was accepted waits for the turn.
    pub(crate) fn wait_for_turn(&mut self, kind: Kind, seat: Seat)
        requires { refusal_of (meaning_of self.old.state) (Open kind seat) ≡ None }
        ensures { Accepts 2 (meaning_of self.old.state) (Open kind seat) (meaning_of self.new.state) }
    {
        self.state.waiting[seat.index()] = Some(kind);
    }

    // A further request of the seat that has the turn.
    pub(crate) fn ask(&mut self, seat: Seat, stage: Stage)
        requires idle { refusal_of (meaning_of self.old.state) (End seat) ≡ None }
        requires unmade { has_made (stage_sight stage 0 []) ≡ false }
        requires room { (t : Turn) → turn_of self.old.state.turn seat ≡ Some t → stage_room stage t.kind t.writes ≡ true }
        ensures { Asked (meaning_of self.old.state) seat (stage_request stage) (meaning_of self.new.state) }
    {
        let Some(turn) = self.state.turn_of(seat) else {
            return unreachable();
        };
        self.state.turn = Some(Turn { stage, ..turn });
    }

    // The turn is free: the seat, whose opening waits, takes it.
    pub(crate) fn first_step(&mut self, seat: Seat) -> (Word, u32)
        requires free { self.old.state.turn ≡ None }
        requires busy { refusal_of (meaning_of self.old.state) (Step seat) ≡ None }
        ensures { SeatSteps (meaning_of self.old.state) seat result.0 result.1 (meaning_of self.new.state) }
    {
        let Some(kind) = self.state.waiting[seat.index()] else {
            return unreachable();
        };
        self.state.take_turn(seat, kind, WriteSet::empty())
    }

    // One step of the transaction that has the turn.
    pub(crate) fn step_of_turn(&mut self, turn: Turn) -> (Word, u32)
        requires turn { self.old.state.turn ≡ Some turn }
        requires busy { is_some (stage_request turn.stage) ≡ true }
        ensures { TurnSteps self.old.state turn result.0 result.1 self.new.state }
    {
        match turn.stage {
            Stage::Ready => unreachable(),
            // The get was accepted, so there is such a cell.
            Stage::Getting { cell } => {
                let latest = self.value_at(cell).unwrap_or(0);
                self.state.tell(turn, cell, latest)
            },
            Stage::Putting { write } => {
                let mut writes = turn.writes;
                match writes.put(write) {
                    Ok(()) => self.state.put(turn, writes),
                    Err(_) => unreachable(),
                }
            },
            Stage::Ending => match turn.kind {
                Kind::Writer => self.state.commit(turn),
                Kind::Reader => self.state.give_up_turn(turn.seat),
            },
            Stage::Made => self.state.give_up_turn(turn.seat),
        }
    }
}
