// Which refusal a call meets, line by line of the table in docs/BOOK.md.
ghost use Rattle.std.specs.Prelude.{◌≡◌, IfOk, count_by};
ghost use Rattle.std.specs.Result.{result_err};
ghost use Rattle.book.specs.Calls.{end_refusal, get_refusal, open_refusal, put_refusal, refusal_of, seat_of, step_refusal, will_make};
ghost use Rattle.serial.specs.Seats.{part_at, refusal_at};
ghost use Rattle.serial.specs.States.{meaning_of};

use crate::serial::Serial;
use book::{Call, Kind, MAX_NUMBER, Refusal, SEATS, Seat, Standing};

impl Serial {
    // The seat that the call is on, or the refusal that the call meets.
    pub(crate) fn allow(&self, call: Call) -> Result<Seat, Refusal>
        ensures refusal { result_err result ≡ refusal_of (meaning_of self.now.state) call }
        ensures seat { IfOk result (λ seat. seat ≡ seat_of call) }
    {
        let seat = Seat::try_from(call.seat())?;
        self.check(call, seat)?;
        Ok(seat)
    }

    // Whether this seat may do what the call asks for.
    fn check(&self, call: Call, seat: Seat) -> Result<(), Refusal>
        ensures { result_err result ≡ refusal_at self.now.state call seat }
    {
        match call {
            Call::Open { kind, .. } => self.may_open(kind, seat),
            Call::Get { cell, .. } => self.may_get(seat, cell),
            Call::Put { cell, .. } => self.may_put(seat, cell),
            Call::End { .. } => self.may_end(seat),
            Call::Step { .. } => self.may_step(seat),
        }
    }

    fn may_open(&self, kind: Kind, seat: Seat) -> Result<(), Refusal>
        ensures { result_err result ≡ open_refusal (meaning_of self.now.state) kind (part_at self.now.state seat) }
    {
        if self.state.standing_in(seat) != Standing::Free {
            return Err(Refusal::SeatNotFree);
        }
        if kind == Kind::Writer && self.state.number + self.writers() >= MAX_NUMBER {
            return Err(Refusal::NumbersUsedUp);
        }
        Ok(())
    }

    fn may_get(&self, seat: Seat, cell: u32) -> Result<(), Refusal>
        ensures { result_err result ≡ get_refusal (meaning_of self.now.state) cell (part_at self.now.state seat) }
    {
        self.may_end(seat)?;
        if cell as usize >= self.state.cells.len() {
            return Err(Refusal::NoSuchCell);
        }
        Ok(())
    }

    fn may_put(&self, seat: Seat, cell: u32) -> Result<(), Refusal>
        ensures { result_err result ≡ put_refusal (meaning_of self.now.state) cell (part_at self.now.state seat) }
    {
        self.may_get(seat, cell)?;
        let Some(turn) = self.state.turn_of(seat) else {
            return unreachable();
        };
        if turn.kind == Kind::Reader {
            return Err(Refusal::PutByReader);
        }
        if turn.writes.is_full_for(cell) {
            return Err(Refusal::WriteSetFull);
        }
        Ok(())
    }

    // Like all further requests, an end is for a seat that is ready.
    fn may_end(&self, seat: Seat) -> Result<(), Refusal>
        ensures { result_err result ≡ end_refusal (part_at self.now.state seat) }
    {
        match self.state.standing_in(seat) {
            Standing::Free => Err(Refusal::SeatFree),
            Standing::Busy => Err(Refusal::SeatBusy),
            Standing::Ready => Ok(()),
        }
    }

    fn may_step(&self, seat: Seat) -> Result<(), Refusal>
        ensures { result_err result ≡ step_refusal (part_at self.now.state seat) }
    {
        match self.state.standing_in(seat) {
            Standing::Free => Err(Refusal::SeatFree),
            Standing::Busy => Ok(()),
            Standing::Ready => Err(Refusal::SeatReady),
        }
    }

    // How many open writers have not made yet.
    fn writers(&self) -> u32
        ensures { result ≡ count_by will_make (meaning_of self.now.state).seats }
    {
        // A loop over the numbers, since a chain over the seats takes up to twice the time.
        let mut n = 0;
        for seat in 0..SEATS {
            if self.seat_will_make(seat) {
                n += 1;
            }
        }
        n
    }

    // Whether the book has this seat and a writer on it that has not made yet.
    fn seat_will_make(&self, seat: u32) -> bool
        ensures { result ≡ will_make (part_at self.now.state seat) }
    {
        Seat::try_from(seat).is_ok_and(|seat| self.state.will_make(seat))
    }
}
