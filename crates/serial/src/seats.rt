// What single seats are doing.
ghost use Rattle.std.specs.Prelude.{◌≡◌, []};
ghost use Rattle.book.specs.Calls.{has_made, will_make};
ghost use Rattle.book.specs.Engines.{kind_in, standing_in};
ghost use Rattle.serial.specs.Seats.{part_at, turn_of};
ghost use Rattle.serial.specs.States.{stage_sight};

use crate::state::{Stage, State, Turn};
use book::{Kind, Seat, Standing};

impl State {
    // The turn, where this seat has it.
    pub(crate) fn turn_of(&self, seat: Seat) -> Option<Turn>
        ensures { result ≡ turn_of self.now.turn seat }
    {
        self.turn.filter(|turn| turn.seat == seat)
    }

    pub(crate) fn kind_in(&self, seat: Seat) -> Option<Kind>
        ensures { result ≡ kind_in (part_at self.now seat) }
    {
        self.turn_of(seat)
            .map(|turn| turn.kind)
            .or(self.waiting[seat.index()])
    }

    pub(crate) fn standing_in(&self, seat: Seat) -> Standing
        ensures { result ≡ standing_in (part_at self.now seat) }
    {
        match self.turn_of(seat).map(|turn| turn.stage) {
            Some(Stage::Ready) => Standing::Ready,
            None if self.waiting[seat.index()].is_none() => Standing::Free,
            _ => Standing::Busy,
        }
    }

    // Whether the seat carries a writer that has not made yet.
    pub(crate) fn will_make(&self, seat: Seat) -> bool
        ensures { result ≡ will_make (part_at self.now seat) }
    {
        // Read ahead of the match, so that a count over all seats has no branch for it.
        let waiting = self.waiting[seat.index()];
        match &self.turn {
            Some(turn) if turn.seat == seat => turn.kind == Kind::Writer && !turn.has_made(),
            _ => waiting == Some(Kind::Writer),
        }
    }
}

impl Turn {
    fn has_made(&self) -> bool
        ensures { result ≡ has_made (stage_sight self.now.stage 0 []) }
    {
        matches!(self.stage, Stage::Made)
    }
}
