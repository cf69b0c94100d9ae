//! Groups that outlive the call that finds them, and a struct that holds an iterator.
use slice_group_by::{LinearGroup, LinearStrGroup};
use std::alloc::{AllocError, Global};
use std::io;

/// The longest run, the last of several.
pub fn longest_run(slice: &[u32]) -> Option<&[u32]> {
    LinearGroup::new(slice).max_by_key(|run| run.len())
}

/// All runs of a text.
pub fn all_runs(alloc: Global, text: &str) -> Result<Vec<&str>, AllocError> {
    LinearStrGroup::new(text).collect(alloc)
}

/// Gives one run after another.
#[derive(Drop)]
pub struct RunReader<'a> {
    runs: LinearGroup<'a, u32>,
}

impl<'a> RunReader<'a> {
    pub fn new(slice: &'a [u32]) -> Self {
        RunReader {
            runs: LinearGroup::new(slice),
        }
    }

    pub fn next_run(&mut self) -> Option<&'a [u32]> {
        self.runs.next()
    }
}

/// Prints what these give.
pub fn print_all(rt: &(impl Print + AllocGlobal)) -> io::Result<()> {
    let mut reader = RunReader::new(&[2, 1, 1, 3]);
    let reads = (reader.next_run(), reader.next_run(), reader.next_run());
    println!(rt;
        "returned: {:?} {:?} {reads:?}",
        longest_run(&[2, 1, 2, 2, 3, 3, 4]),
        all_runs(rt.alloc(), "aab")?
    )
}
