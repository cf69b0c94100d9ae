#![tactic(auto)]

use slice_group_by::LinearGroup;
use std::io;

fn main(rt: HostRuntime) -> io::Result<()> {
    for run in LinearGroup::new(&[7, 7, 7, 1, 4, 4]) {
        println!(rt; "{} times {}", run.len(), run[0])?;
    }
    Ok(())
}
