// Reads a sheet on standard input and prints what became of it.
#![tactic(auto)]

use std::io::Read;

fn run(rt: &HostRuntime) -> anyhow::Result<()> {
    let heap = rt.alloc();
    let mut sheet = Vec::new(heap);
    rt.stdin().read_to_end(&mut sheet)?;
    let text = report::of_sheet(heap, sheet.as_slice())?;
    rt.print(text)?;
    Ok(())
}

fn main(rt: HostRuntime) -> anyhow::Result<()> {
    run(&rt)
}
