//! Searches: a lower bound, and searches that are lent a function which counts its calls in a variable of the caller's.
ghost use Rattle.std.specs.Prelude.{◌≡◌, ◌↔◌, ℕ, ◌+◌, ◌*◌, ◌<◌, ◌≤◌, Some, count_by, map, not, slice_get, string_bytes, string_cmp};
ghost use Rattle.std.specs.List.{filter};
ghost use Rattle.std.specs.declared.cmp.Ordering.TheVariants.{Equal};
ghost use Rattle.std.specs.Cmp.Lexicographic.{slice_cmp};
ghost use Rattle.std.specs.Ordering.{is_eq, is_lt, nat_cmp};
ghost use Rattle.slice_group_by.specs.Search.{FindsIn, IsLessEqualGreater, NeverDescends, between};
ghost use Rattle.slice_group_by.specs.Searching.{digits, answer_place};
ghost use Rattle.example_counts.specs.Keys.{key};

use crate::joins::Entry;
use slice_group_by::laws::{
    always_computes, ascending_is_searchable, range_places, search_counts,
    searchable_is_partitioned, sorts_ascend,
};
use slice_group_by::{
    exponential_equal_places_by, exponential_equal_places_by_key, exponential_partition_point,
    exponential_search_by, exponential_search_by_key_ref, exponential_search_by_ref,
};
use std::cmp::Ordering;
use std::ops::Range;

/// How many elements are less than one that is given, of a slice that ascends.
pub fn lower_bound<T: Ord>(slice: &[T], sought: &T) -> usize
    requires { NeverDescends T.cmp slice.now }
    ensures { result ≡ count_by (λ x. is_lt (T.cmp x sought.now)) slice.now }
{
    ascending_is_searchable::<T, T>();
    searchable_is_partitioned::<T>();
    let less = |x: &T| x.cmp(sought).is_lt();
    always_computes(&less);
    exponential_partition_point(slice, less)
}

/// The elements that are less than one that is given, and the others, of a slice that ascends.
pub fn split_below<'a, T: Ord>(slice: &'a [T], sought: &T) -> (&'a [T], &'a [T])
    requires { NeverDescends T.cmp slice.now }
    ensures below { result.0.now ≡ filter (λ x. is_lt (T.cmp x sought.now)) slice.now }
    ensures others { result.1.now ≡ filter (λ x. not (is_lt (T.cmp x sought.now))) slice.now }
{
    ascending_is_searchable::<T, T>();
    searchable_is_partitioned::<T>();
    slice.split_at(lower_bound(slice, sought))
}

/// The rows whose keys lie from `low` to `high`, of rows that ascend by them.
pub fn rows_between(rows: &[Entry], low: u32, high: u32) -> &[Entry]
    requires { NeverDescends nat_cmp (map key rows.now) }
    ensures { result.now ≡ filter (λ row. is_eq (between nat_cmp low high (key row))) rows.now }
{
    ascending_is_searchable::<Entry, u32>();
    range_places::<Entry>();
    let compare = |row: &Entry| {
        if row.0 < low {
            Ordering::Less
        } else if row.0 > high {
            Ordering::Greater
        } else {
            Ordering::Equal
        }
    };
    always_computes(&compare);
    let places = exponential_equal_places_by(rows, compare);
    &rows[places]
}

/// Where the rows of a key stand, of rows that ascend by their keys: there, and nowhere else.
pub fn places_of(rows: &[Entry], sought: u32) -> Range<usize>
    requires { NeverDescends nat_cmp (map key rows.now) }
    ensures { (i : ℕ) (row : ℕ × ℕ) → slice_get rows.now i ≡ Some row
        → ((result.start ≤ i) × (i < result.end)) ↔ (nat_cmp (key row) sought ≡ Equal) }
{
    range_places::<Entry>();
    let key = |row: &Entry| row.0;
    always_computes(&key);
    exponential_equal_places_by_key(rows, &sought, key)
}

/// Where a word stands in words that ascend. The word is a text of its own, and no `String`.
pub fn place_of_word(words: &[String], word: &str) -> Result<usize, usize>
    requires { NeverDescends string_cmp words.now }
    ensures { FindsIn (λ w. slice_cmp nat_cmp (string_bytes w) word.now) words.now result }
{
    sorts_ascend::<String, String>();
    let compare = |w: &String| w.as_str().cmp(word);
    always_computes(&compare);
    exponential_search_by(words, compare)
}

/// A search, and how many questions it asked: few, where the place is near the beginning.
pub fn questions_of_search(xs: &[u32], elem: u32) -> (Result<usize, usize>, usize)
    ensures found { IsLessEqualGreater (λ x. nat_cmp x elem) xs.now → FindsIn (λ x. nat_cmp x elem) xs.now result.0 }
    ensures questions { result.1 ≤ 2 * digits (answer_place result.0 + 1) + 1 }
{
    let mut count = 0usize;
    let mut comparator = |x: &u32| {
        count = count.wrapping_add(1);
        x.cmp(&elem)
    };
    search_counts(&comparator);
    always_computes(&comparator);
    let found = exponential_search_by_ref(xs, &mut comparator);
    (found, count)
}

/// The same by a key, of rows that ascend by it: how often the key function is called.
pub fn keys_of_search(rows: &[Entry], sought: u32) -> (Result<usize, usize>, usize)
    ensures found { NeverDescends nat_cmp (map key rows.now)
        → FindsIn (λ row. nat_cmp (key row) sought) rows.now result.0 }
    ensures keys { result.1 ≤ 2 * digits (answer_place result.0 + 1) + 1 }
{
    let mut count = 0usize;
    let mut key = |row: &Entry| {
        count = count.wrapping_add(1);
        row.0
    };
    search_counts(&key);
    always_computes(&key);
    let found = exponential_search_by_key_ref(rows, &sought, &mut key);
    (found, count)
}
