// What a book answers.
ghost use Rattle.std.specs.Prelude.{◌≡◌};
ghost use Rattle.book.specs.Engines.{request_answer, step_answer};

use crate::refusal::Refusal;

// The word of a step's answer. It comes with a number: the view's at `Opened`, a value at `Told`, the new number of the
// latest cells at `Made`, the transaction's own number at `Ended`, and 0 at the others.
#[derive(Clone, Copy, Debug, PartialEq, Eq)]
pub enum Word {
    // The seat cannot go on before another seat does.
    Wait,
    // The seat went on, and its request is not answered yet.
    Moved,
    Opened,
    Told,
    Put,
    // The writes of an ending writer became the latest cells.
    Made,
    // The seat is free again.
    Ended,
}

// The answer to one call of a list.
#[derive(Clone, Copy, Debug, PartialEq, Eq)]
pub enum Answer {
    // A request was taken on; steps of its seat will answer it.
    Accepted,
    Stepped(Word, u32),
    Declined(Refusal),
}

// The answer to a request.
impl From<Result<(), Refusal>> for Answer {
    ghost from_gives = { λ r answer. answer ≡ request_answer r };

    fn from(r: Result<(), Refusal>) -> Answer {
        match r {
            Ok(()) => Answer::Accepted,
            Err(refusal) => Answer::Declined(refusal),
        }
    }
}

// The answer to a step.
impl From<Result<(Word, u32), Refusal>> for Answer {
    ghost from_gives = { λ r answer. answer ≡ step_answer r };

    fn from(r: Result<(Word, u32), Refusal>) -> Answer {
        match r {
            Ok((word, number)) => Answer::Stepped(word, number),
            Err(refusal) => Answer::Declined(refusal),
        }
    }
}

// What a seat is doing.
#[derive(Clone, Copy, Debug, PartialEq, Eq)]
pub enum Standing {
    Free,
    // It carries a transaction that has no unanswered request.
    Ready,
    // Its transaction has an unanswered request.
    Busy,
}
