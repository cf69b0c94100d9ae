//! Closures that capture, that count and that are handed in, and keys that are owned.
use slice_group_by::{GroupBy, LinearGroupBy, exponential_equal_places_by, exponential_search_by};
use std::alloc::{AllocError, Global};
use std::io;

/// How many stretches there are in which neighbours differ by at most `gap`.
pub fn stretches(slice: &[u32], gap: u32) -> usize {
    slice.linear_group_by(|a, b| a.abs_diff(*b) <= gap).count()
}

/// How many questions a walk asks.
pub fn questions(slice: &[u32]) -> usize {
    let mut count = 0usize;
    let groups = LinearGroupBy::new(slice, |a, b| {
        count = count.wrapping_add(1);
        a == b
    });
    for _ in groups {}
    count
}

/// How many groups a predicate makes that is handed in. It may be called on any elements, in every state.
pub fn count_groups<T, P: FnMut(&T, &T) -> bool>(slice: &[T], predicate: P) -> usize
    requires { (p : _) (a : _) (b : _) → P.pre p a b }
{
    LinearGroupBy::new(slice, predicate).count()
}

/// The same with no contract: the predicate is a method.
pub fn count_together<T, P: Together<T>>(slice: &[T], predicate: &P) -> usize {
    LinearGroupBy::new(slice, |a, b| predicate.are_together(a, b)).count()
}

/// What says which neighbours belong together.
pub trait Together<T> {
    fn are_together(&self, left: &T, right: &T) -> bool;
}

/// Neighbours that differ by at most this much.
#[derive(Drop)]
pub struct Within(pub u32);

impl Together<u32> for Within {
    fn are_together(&self, left: &u32, right: &u32) -> bool {
        left.abs_diff(*right) <= self.0
    }
}

/// A word of an index and a page that it stands on.
#[derive(Drop)]
pub struct Entry {
    pub word: String,
    pub page: u32,
}

/// How many words a sorted index has.
pub fn count_words(index: &[Entry]) -> usize {
    index.linear_group_by(|a, b| a.word == b.word).count()
}

/// A page of the word in a sorted index.
pub fn find_page(index: &[Entry], word: &str) -> Option<u32> {
    let place = exponential_search_by(index, |entry| entry.word.as_str().cmp(word)).ok()?;
    Some(index[place].page)
}

/// All entries of the word in a sorted index.
pub fn entries_of<'a>(index: &'a [Entry], word: &str) -> &'a [Entry] {
    &index[exponential_equal_places_by(index, |entry| entry.word.as_str().cmp(word))]
}

// Words and the pages that they stand on.
fn index(alloc: Global) -> Result<Vec<Entry>, AllocError> {
    let mut index = Vec::new(alloc);
    for (word, page) in [("ant", 2), ("ant", 9), ("bee", 4)] {
        index.push(Entry {
            word: format!(in alloc; "{word}")?,
            page,
        })?;
    }
    Ok(index)
}

/// Prints what these give.
pub fn print_all(rt: &(impl Print + AllocGlobal)) -> io::Result<()> {
    let near = [1, 2, 4, 9, 9, 20, 3];
    let counts = (
        stretches(&near, 2),
        questions(&near),
        count_groups(&near, |a, b| a < b),
        count_together(&near, &Within(5)),
    );
    let index = index(rt.alloc())?;
    let found = (
        find_page(&index, "bee"),
        find_page(&index, "bat"),
        find_page(&index, "cat"),
    );
    println!(rt;
        "closures: {counts:?} {} {found:?} {}",
        count_words(&index),
        entries_of(&index, "ant")
            .last()
            .map_or(0, |entry| entry.page)
    )
}
