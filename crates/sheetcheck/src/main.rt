// Writes the forms of the sheet on standard input in plain spelling, or why it is not read.
#![tactic(auto)]

use sheet::reading::LONGEST;
use sheet::report::report;
use std::io::Read;

// One byte more than a sheet has at most: longer input is refused without being held.
const MOST: u64 = LONGEST as u64 + 1;

fn run(rt: &HostRuntime) -> anyhow::Result<()> {
    let mut sheet = Vec::new(rt.alloc());
    rt.stdin().take(MOST).read_to_end(&mut sheet)?;
    let text = report(rt.alloc(), sheet.as_slice())?;
    print!(rt; "{text}")?;
    Ok(())
}

fn main(rt: HostRuntime) -> anyhow::Result<()> {
    run(&rt)
}
