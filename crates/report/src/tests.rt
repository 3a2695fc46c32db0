// Sheets with what is said of them, taken from docs/SHEETS.md.
use super::of_sheet;
use std::alloc::Global;
use std::process::Abort;
use std::test::Fail;

fn says(rt: &impl Abort, heap: Global, sheet: &str, text: &str) -> Result<(), Fail> {
    let said = of_sheet(heap, sheet.as_bytes())?;
    assert!(rt; said.as_str() == text, "another answer");
    Ok(())
}

// `head`, then `part` so many times, then `tail`.
fn repeated(heap: Global, head: &str, part: &str, times: u32, tail: &str) -> Result<String, Fail> {
    let mut sheet = String::from_str(heap, head)?;
    for _ in 0..times {
        sheet.push_str(part)?;
    }
    sheet.push_str(tail)?;
    Ok(sheet)
}

#[test]
fn headings(rt: HostRuntime) -> Result<(), Fail> {
    let heap = rt.alloc();
    for sheet in [
        "",
        "\n",
        "t",
        "t\n",
        "x 1 5\n",
        "t 1 5",
        "t 1 5\r\n",
        "t  1 5\n",
        " t 1 5\n",
        "t 1 5 \n",
        "t1 5\n",
        "tt 1 5\n",
        "1 5\n",
    ] {
        says(&rt, heap, sheet, "no 13 1\n")?;
    }
    Ok(())
}

#[test]
fn numbers(rt: HostRuntime) -> Result<(), Fail> {
    let heap = rt.alloc();
    for sheet in [
        "t 01\n",
        "t +1\n",
        "t -1\n",
        "t 1x\n",
        "t 4294967296\n",
        "t 99999999999\n",
        "t 1.0\n",
        "t a\n",
    ] {
        says(&rt, heap, sheet, "no 13 1\n")?;
    }
    says(
        &rt,
        heap,
        "m 4294967295 0\ns 0\n",
        "engine pessimistic\nversion 4294967295\ncells 1\ncalls 1\nopenings of readers 0\nopenings of writers 0\ngets 0\nputs 0\nends 0\nsteps 1\n",
    )
}

#[test]
fn calls(rt: HostRuntime) -> Result<(), Fail> {
    let heap = rt.alloc();
    for sheet in [
        "t 1 5\nr\n",
        "t 1 5\nr 0 0\n",
        "t 1 5\ng 0\n",
        "t 1 5\np 0 0\n",
        "t 1 5\np 0 0 1 1\n",
        "t 1 5\nx 0\n",
        "t 1 5\n\n",
        "t 1 5\ns 0",
    ] {
        says(&rt, heap, sheet, "no 13 2\n")?;
    }
    says(&rt, heap, "t 1 5\nw 0\ns 0\ne 0 0\n", "no 13 4\n")?;
    says(
        &rt,
        heap,
        "t 1\nr 1\nw 2\ng 3 4\np 5 6 7\ne 8\ns 9\n",
        "engine serial\nversion 1\ncells 0\ncalls 6\nopenings of readers 1\nopenings of writers 1\ngets 1\nputs 1\nends 1\nsteps 1\n",
    )
}

#[test]
fn limits(rt: HostRuntime) -> Result<(), Fail> {
    let heap = rt.alloc();
    let widest = repeated(heap, "t 1", " 1", 8190, "\n")?;
    assert_eq!(rt; widest.len(), 16_384);
    says(
        &rt,
        heap,
        widest.as_str(),
        "engine serial\nversion 1\ncells 8190\ncalls 0\nopenings of readers 0\nopenings of writers 0\ngets 0\nputs 0\nends 0\nsteps 0\n",
    )?;
    let wider = repeated(heap, "t 10", " 1", 8190, "\n")?;
    assert_eq!(rt; wider.len(), 16_385);
    says(&rt, heap, wider.as_str(), "no 14\n")?;
    let longest = repeated(heap, "t 1 5\n", "s 0\n", 1024, "")?;
    says(
        &rt,
        heap,
        longest.as_str(),
        "engine serial\nversion 1\ncells 1\ncalls 1024\nopenings of readers 0\nopenings of writers 0\ngets 0\nputs 0\nends 0\nsteps 1024\n",
    )?;
    let longer = repeated(heap, "t 1 5\n", "s 0\n", 1024, "x")?;
    says(&rt, heap, longer.as_str(), "no 14\n")
}
