//! Both ends of a slice and of a text, for reading and for writing.
use slice_group_by::{LinearGroupMut, StrGroupBy};
use std::io;

/// Fills the first group and the last, which are out at once.
pub fn fill_ends(slice: &mut [i32]) {
    let mut groups = LinearGroupMut::new(slice);
    if let (Some(first), Some(last)) = (groups.next(), groups.next_back()) {
        first.fill(7);
        last.fill(9);
    } // [1, 1, 2, 3, 3] ends as [7, 7, 2, 9, 9]
}

/// What stands between the first run of equal characters and the last.
pub fn between_ends<'a>(text: &'a &str) -> &'a str {
    let mut runs = text.linear_group_by(|a, b| a == b);
    runs.next();
    runs.next_back();
    runs.as_str() // of "aaaabbbbb饰饰cccc": "bbbbb饰饰"
}

/// Prints what these give.
pub fn print_all(rt: &impl Print) -> io::Result<()> {
    let mut ends = [1, 2, 1, 3, 3];
    fill_ends(&mut ends);
    println!(rt; "first page: {ends:?} {}", between_ends(&"aaaabbbbb饰饰cccc"))
}
