ghost use Rattle.std.specs.Prelude.{◌≡◌, length, Some, None, MatchResult};
ghost use Rattle.book.specs.Engines.{IfDeclined, none_open, run_refusal, says_free, seat_standing};
ghost use Rattle.book.specs.Ran.{Ran};
ghost use Rattle.book.specs.Runs.{Does};

use crate::answer::{Answer, Standing};
use crate::call::Call;
use crate::engine::{Engine, SEATS};
use crate::refusal::Refusal;

// Makes one call on an engine.
pub fn call_on<E: Engine>(engine: &mut E, call: Call) -> Answer
    ensures does { Does E.BOUND (E.meaning engine.old) call result (E.meaning engine.new) }
    ensures unchanged { IfDeclined result (engine.new ≡ engine.old) }
{
    match call {
        Call::Open { kind, seat } => engine.open(kind, seat).into(),
        Call::Get { seat, cell } => engine.get(seat, cell).into(),
        Call::Put { seat, cell, value } => engine.put(seat, cell, value).into(),
        Call::End { seat } => engine.end(seat).into(),
        Call::Step { seat } => engine.step(seat).into(),
    }
}

fn is_free<E: Engine>(engine: &E, seat: u32) -> bool
    ensures { result ≡ says_free (seat_standing (E.meaning engine.now) seat) }
{
    engine.standing(seat) == Ok(Standing::Free)
}

// Whether no seat of the engine carries a transaction.
fn all_free<E: Engine>(engine: &E) -> bool
    ensures { result ≡ none_open (E.meaning engine.now).seats }
{
    (0..SEATS).all(|seat| is_free(engine, seat))
}

// Makes the calls one after the other and writes each answer into its place. Declined, with nothing touched, where there
// is no room for the answers or a seat is not free.
pub fn run<E: Engine>(engine: &mut E, calls: &[Call], answers: &mut [Answer]) -> Result<(), Refusal>
    ensures { MatchResult result (λ _. (run_refusal (length calls.now) (length answers.old) (E.meaning engine.old) ≡ None) × Ran E.BOUND (E.meaning engine.old) calls.now answers.old answers.new (E.meaning engine.new)) (λ refusal. (run_refusal (length calls.now) (length answers.old) (E.meaning engine.old) ≡ Some refusal) × (engine.new ≡ engine.old) × (answers.new ≡ answers.old)) }
{
    if answers.len() < calls.len() {
        return Err(Refusal::ListTooShort);
    }
    if !all_free(engine) {
        return Err(Refusal::SeatInUse);
    }
    for (i, call) in calls.iter().enumerate() {
        answers[i] = call_on(engine, *call);
    }
    Ok(())
}
