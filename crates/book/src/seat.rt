// A place for one transaction.
ghost use Rattle.std.specs.Prelude.{◌≡◌, ℕ, ◌<◌};
ghost use Rattle.std.specs.List.{range_with_len};
ghost use Rattle.book.specs.Seats.{seated};
ghost use Rattle.book.specs.Sizes.{seat_count};

use crate::engine::SEATS;
use crate::refusal::Refusal;
use std::array;
use std::marker::Model;

// A seat that the book has: its number is below the count of seats. Calls bear any number.
#[derive(Clone, Copy, Debug, PartialEq, Eq)]
pub struct Seat {
    number: u32,
}

impl Model for Seat {
    ghost Value = { ℕ };

    ghost view = { λ seat. seat.number };

    ghost invariant = { λ seat. seat.number < seat_count };

    ghost inverse = { λ n. record { number = n } };
}

impl TryFrom<u32> for Seat {
    type Error = Refusal;

    ghost try_from_gives = { λ number r. r ≡ seated number };

    fn try_from(number: u32) -> Result<Seat, Refusal> {
        if number >= SEATS {
            return Err(Refusal::NoSuchSeat);
        }
        Ok(Seat { number })
    }
}

impl Seat {
    // All seats, in order.
    pub fn all() -> [Seat; SEATS as usize]
        ensures { result ≡ range_with_len 0 seat_count }
    {
        array::from_fn(
            |place: usize| -> Seat
                requires { place < seat_count }
                ensures { result ≡ place }
            {
                Seat {
                    number: place as u32,
                }
            },
        )
    }

    // Where the seat stands in a list of all seats.
    pub fn index(self) -> usize
        ensures number { result ≡ self }
        ensures within { result < seat_count }
    {
        self.number as usize
    }
}
