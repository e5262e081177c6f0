// Checks each of the sample sheets, and writes its name and the report on it.
#![tactic(auto)]

use sheet::report::report;
use std::fs;

const NAMES: [&str; 6] = [
    "comments",
    "fault-empty",
    "fault-grammar",
    "fault-house",
    "net",
    "series",
];

fn sample(rt: &HostRuntime, name: &str) -> anyhow::Result<()> {
    let path = format!(in rt.alloc(); "{name}.sheet")?;
    let sheet = fs::read(rt, path.as_str())?;
    let text = report(rt.alloc(), sheet.as_slice())?;
    println!(rt; "; {name}")?;
    print!(rt; "{text}")?;
    Ok(())
}

fn run(rt: &HostRuntime) -> anyhow::Result<()> {
    for name in NAMES {
        sample(rt, name)?;
    }
    Ok(())
}

fn main(rt: HostRuntime) -> anyhow::Result<()> {
    run(&rt)
}
