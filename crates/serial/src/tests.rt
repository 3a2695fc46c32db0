// Lists of calls with the answers to them, taken from docs/BOOK.md and docs/ENGINES.md.
use super::Serial;
use book::{Answer, Call, Engine, Kind, Refusal, Value, Word, run};
use std::process::Abort;
use std::test::Fail;

fn plays(
    rt: &impl Abort,
    version: u32,
    cells: &[Value],
    calls: &[Call],
    wanted: &[Answer],
) -> Result<(), Fail> {
    let Ok(mut book) = Serial::start(version, cells) else {
        assert!(rt; false, "the book did not start");
        return Ok(());
    };
    let mut answers = [Answer::Accepted; 40];
    assert!(rt;
        run(&mut book, calls, &mut answers).is_ok(),
        "the run was declined"
    );
    assert_eq!(rt; calls.len(), wanted.len());
    assert!(rt; answers.starts_with(wanted), "other answers");
    Ok(())
}

fn declined(rt: &impl Abort, found: Result<(), Refusal>, refusal: Refusal) -> Result<(), Fail> {
    match found {
        Ok(()) => {
            assert!(rt; false, "it was accepted");
            Ok(())
        },
        Err(found) => {
            assert_eq!(rt; found, refusal);
            Ok(())
        },
    }
}

fn starts_not(
    rt: &impl Abort,
    version: u32,
    cells: &[Value],
    refusal: Refusal,
) -> Result<(), Fail> {
    match Serial::start(version, cells) {
        Ok(_) => {
            assert!(rt; false, "the book started");
            Ok(())
        },
        Err(found) => {
            assert_eq!(rt; found, refusal);
            Ok(())
        },
    }
}

#[test]
fn serial_example(rt: HostRuntime) -> Result<(), Fail> {
    plays(
        &rt,
        1,
        &[5, 7],
        &[
            Call::Open {
                kind: Kind::Writer,
                seat: 0,
            },
            Call::Step { seat: 0 },
            Call::Get { seat: 0, cell: 1 },
            Call::Step { seat: 0 },
            Call::Step { seat: 0 },
        ],
        &[
            Answer::Accepted,
            Answer::Stepped(Word::Opened, 0),
            Answer::Accepted,
            Answer::Stepped(Word::Told, 7),
            Answer::Declined(Refusal::SeatReady),
        ],
    )
}

#[test]
fn two_writers_and_a_reader_that_waits(rt: HostRuntime) -> Result<(), Fail> {
    plays(
        &rt,
        3,
        &[5, 7],
        &[
            Call::Open {
                kind: Kind::Writer,
                seat: 0,
            },
            Call::Open {
                kind: Kind::Reader,
                seat: 1,
            },
            Call::Open {
                kind: Kind::Writer,
                seat: 2,
            },
            Call::Step { seat: 0 },
            Call::Step { seat: 1 },
            Call::Put {
                seat: 0,
                cell: 0,
                value: 6,
            },
            Call::Step { seat: 0 },
            Call::End { seat: 0 },
            Call::Step { seat: 0 },
            Call::Step { seat: 1 },
            Call::Step { seat: 0 },
            Call::Step { seat: 1 },
            Call::Get { seat: 1, cell: 0 },
            Call::Step { seat: 1 },
            Call::Step { seat: 2 },
            Call::End { seat: 1 },
            Call::Step { seat: 1 },
            Call::Step { seat: 2 },
            Call::Put {
                seat: 2,
                cell: 1,
                value: 8,
            },
            Call::Step { seat: 2 },
            Call::Get { seat: 2, cell: 1 },
            Call::Step { seat: 2 },
            Call::End { seat: 2 },
            Call::Step { seat: 2 },
            Call::Step { seat: 2 },
        ],
        &[
            Answer::Accepted,
            Answer::Accepted,
            Answer::Accepted,
            Answer::Stepped(Word::Opened, 1),
            Answer::Stepped(Word::Wait, 0),
            Answer::Accepted,
            Answer::Stepped(Word::Put, 0),
            Answer::Accepted,
            Answer::Stepped(Word::Made, 2),
            Answer::Stepped(Word::Wait, 0),
            Answer::Stepped(Word::Ended, 2),
            Answer::Stepped(Word::Opened, 2),
            Answer::Accepted,
            Answer::Stepped(Word::Told, 6),
            Answer::Stepped(Word::Wait, 0),
            Answer::Accepted,
            Answer::Stepped(Word::Ended, 2),
            Answer::Stepped(Word::Opened, 2),
            Answer::Accepted,
            Answer::Stepped(Word::Put, 0),
            Answer::Accepted,
            Answer::Stepped(Word::Told, 8),
            Answer::Accepted,
            Answer::Stepped(Word::Made, 3),
            Answer::Stepped(Word::Ended, 3),
        ],
    )
}

#[test]
fn refusals_of_a_start(rt: HostRuntime) -> Result<(), Fail> {
    starts_not(&rt, 1, &[], Refusal::CellCount)?;
    starts_not(&rt, 1, &[0; 65], Refusal::CellCount)?;
    starts_not(&rt, 2, &[5, 7], Refusal::EvenVersion)
}

#[test]
fn refusals_of_calls(rt: HostRuntime) -> Result<(), Fail> {
    plays(
        &rt,
        1,
        &[5],
        &[
            Call::Step { seat: 8 },
            Call::Get { seat: 0, cell: 0 },
            Call::Open {
                kind: Kind::Reader,
                seat: 0,
            },
            Call::Open {
                kind: Kind::Reader,
                seat: 0,
            },
            Call::End { seat: 0 },
            Call::Step { seat: 0 },
            Call::Step { seat: 0 },
            Call::Get { seat: 0, cell: 1 },
            Call::Put {
                seat: 0,
                cell: 0,
                value: 1,
            },
        ],
        &[
            Answer::Declined(Refusal::NoSuchSeat),
            Answer::Declined(Refusal::SeatFree),
            Answer::Accepted,
            Answer::Declined(Refusal::SeatNotFree),
            Answer::Declined(Refusal::SeatBusy),
            Answer::Stepped(Word::Opened, 0),
            Answer::Declined(Refusal::SeatReady),
            Answer::Declined(Refusal::NoSuchCell),
            Answer::Declined(Refusal::PutByReader),
        ],
    )
}

#[test]
fn last_number(rt: HostRuntime) -> Result<(), Fail> {
    let writers = [
        Call::Open {
            kind: Kind::Writer,
            seat: 0,
        },
        Call::Open {
            kind: Kind::Writer,
            seat: 1,
        },
    ];
    let full = Answer::Declined(Refusal::NumbersUsedUp);
    plays(
        &rt,
        4_294_967_293,
        &[5],
        &writers,
        &[Answer::Accepted, full],
    )?;
    plays(&rt, 4_294_967_295, &[5], &writers, &[full, full])
}

#[test]
fn full_write_set(rt: HostRuntime) -> Result<(), Fail> {
    let Ok(mut book) = Serial::start(1, &[0; 17]) else {
        assert!(rt; false, "the book did not start");
        return Ok(());
    };
    assert!(rt; book.open(Kind::Writer, 0).is_ok());
    assert!(rt; book.step(0).is_ok());
    for cell in 0..16 {
        assert!(rt; book.put(0, cell, 1).is_ok());
        assert!(rt; book.step(0).is_ok());
    }
    declined(&rt, book.put(0, 16, 1), Refusal::WriteSetFull)?;
    assert!(rt; book.put(0, 15, 2).is_ok());
    Ok(())
}

#[test]
fn refusals_of_a_run(rt: HostRuntime) -> Result<(), Fail> {
    let Ok(mut book) = Serial::start(1, &[5]) else {
        assert!(rt; false, "the book did not start");
        return Ok(());
    };
    let calls = [Call::Open {
        kind: Kind::Reader,
        seat: 7,
    }];
    let mut answers = [Answer::Stepped(Word::Wait, 0)];
    declined(&rt, run(&mut book, &calls, &mut []), Refusal::ListTooShort)?;
    assert!(rt; run(&mut book, &calls, &mut answers).is_ok());
    assert_eq!(rt; answers[0], Answer::Accepted);
    declined(
        &rt,
        run(&mut book, &calls, &mut answers),
        Refusal::SeatInUse,
    )
}
