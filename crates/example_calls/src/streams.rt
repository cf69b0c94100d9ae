//! Streams that come in blocks.
use slice_group_by::LinearGroupByKey;
use slice_group_stream::{Parts, StreamGroups};
use std::io;

/// Prints how many events each session has, and when the last one was. Events of a session follow within half a minute,
/// and a session may go on over several blocks.
pub fn print_sessions(rt: &impl Print, blocks: &[&[u64]]) -> io::Result<()> {
    let mut stream = StreamGroups::new();
    let (mut len, mut last) = (0usize, 0u64);
    for block in blocks {
        for (begins, part) in stream.parts_by(block, |a, b| b.saturating_sub(*a) < 30) {
            if begins {
                print_session(rt, len, last)?;
                len = 0;
            }
            len = len.saturating_add(part.len());
            last = part.last().copied().unwrap_or(last);
        }
    }
    print_session(rt, len, last)
}

// A session, if it has events.
fn print_session(rt: &impl Print, len: usize, last: u64) -> io::Result<()> {
    if len == 0 {
        return Ok(());
    }
    println!(rt; "session: {len} up to {last}")
}

/// Prints the sum of each key of lines `key,value`, in which equal keys stand side by side; an empty key has none. A line
/// borrows from its block, so the key of the open sum is a `String` of its own.
pub fn print_sums(rt: &(impl Print + AllocGlobal), blocks: &[&str]) -> io::Result<()> {
    let (mut key, mut sum) = (String::new(rt.alloc()), 0u64);
    for block in blocks {
        let rows: Vec<(&str, u64)> = block.lines().map(row_of).collect(rt.alloc())?;
        let begins = rows.first().is_some_and(|row| row.0 != key.as_str());
        for (begins, part) in Parts::new(begins, LinearGroupByKey::new(&rows, |row| row.0)) {
            if begins {
                print_sum(rt, &key, sum)?;
                (key, sum) = (format!(in rt.alloc(); "{}", part[0].0)?, 0);
            }
            sum = part.iter().fold(sum, |sum, row| sum.saturating_add(row.1));
        }
    }
    print_sum(rt, &key, sum)
}

fn print_sum(rt: &impl Print, key: &str, sum: u64) -> io::Result<()> {
    if key.is_empty() {
        return Ok(());
    }
    println!(rt; "{key} {sum}")
}

fn row_of(line: &str) -> (&str, u64) {
    let (key, value) = line.split_once(',').unwrap_or((line, "0"));
    (key, value.parse().unwrap_or(0))
}

/// Prints what these give.
pub fn print_all(rt: &(impl Print + AllocGlobal)) -> io::Result<()> {
    print_sessions(rt, &[&[0, 10, 25], &[50, 100], &[], &[110]])?;
    print_sums(rt, &["ink,3\npens,4\n", "pens,1\ntape,2\n"])
}
