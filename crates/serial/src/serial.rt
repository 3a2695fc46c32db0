ghost use Rattle.std.specs.Prelude.{◌≡◌, ◌<◌, ◌≤◌, true, length};
ghost use Rattle.book.specs.Calls.{numbers_taken};
ghost use Rattle.book.specs.Sizes.{max_cells, max_number, seat_count};
ghost use Rattle.fixed_vec.specs.Listed.{places};
ghost use Rattle.serial.specs.Rooms.{turn_room};
ghost use Rattle.serial.specs.States.{meaning_of, turn_seat};

use crate::state::State;

// The one-at-a-time engine. Its type says that its numbers never run out.
#[derive(Clone, Copy)]
pub struct Serial {
    pub(crate) state: State,
    ghost cells: { length (places state.cells) ≡ max_cells },
    ghost count: { length state.cells.items ≤ max_cells },
    ghost seats: { length state.waiting ≡ seat_count },
    ghost within: { turn_seat state.turn < seat_count },
    ghost fits: { turn_room state.turn ≡ true },
    ghost room: { numbers_taken (meaning_of state) ≤ max_number },
}
