//! What remains after some groups.
use slice_group_by::{LinearGroup, LinearStrGroup};
use std::io;

/// What stands after the first run.
pub fn after_first_run(slice: &[u32]) -> &[u32] {
    let mut runs = LinearGroup::new(slice);
    runs.next();
    runs.remainder()
}

/// What stands after the first run of a text.
pub fn after_first_letters(text: &str) -> &str {
    let mut runs = LinearStrGroup::new(text);
    runs.next();
    runs.as_str()
}

/// Prints what these give.
pub fn print_all(rt: &impl Print) -> io::Result<()> {
    println!(rt;
        "rest: {:?} {:?}",
        after_first_run(&[2, 1, 2]),
        after_first_letters("aab")
    )
}
