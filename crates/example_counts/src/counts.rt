//! Calls of closures that they count in a variable of their caller's: what a walk over groups costs.
ghost use Rattle.std.specs.Prelude.{◌≡◌, ◌+◌, ◌-◌, ◌*◌, ◌^◌, ◌<◌, ◌≤◌, ℕ, List, ◌++◌, flat_map, length, map};
ghost use Rattle.std.specs.Prelude.{option_map, nat_eq, MatchOption};
ghost use Rattle.slice_group_by.specs.Queue.{pops};
ghost use Rattle.slice_group_by.specs.Searching.{digits};
ghost use Rattle.slice_group_by.specs.Split.{IsGrouped, last, split};
ghost use Rattle.slice_group_stream.specs.Streams.{kept_of};

use slice_group_by::laws::{
    calls_ask, linear_counts, mapped_calls_ask, questions_count, search_asks,
};
use slice_group_by::{BinaryGroupBy, End, ExponentialGroupBy, LinearGroupBy, walk};
use slice_group_stream::StreamGroups;
use slice_group_stream::laws::{parts_join, streams_count, streams_count_keys};
use slice_merge_join::MergeJoinBy;
use slice_merge_join::laws::{join_counts, merges_ask};

/// How many questions a walk over linear groups asks: one less than there are elements, and none where there are none.
pub fn linear_questions(xs: &[u32]) -> usize
    ensures { result ≡ length xs.now - 1 }
{
    let mut count = 0usize;
    let mut groups = LinearGroupBy::new(xs, |a: &u32, b: &u32| {
        count = count.wrapping_add(1);
        a == b
    });
    calls_ask(&groups);
    linear_counts(&groups);
    while let Some(_) = groups.next() {}
    count
}

/// How many a walk over exponential groups asks: at most three for each element.
pub fn exponential_questions(xs: &[u32]) -> usize
    ensures { result ≤ 3 * length xs.now }
{
    let mut count = 0usize;
    let groups = ExponentialGroupBy::new(xs, |a: &u32, b: &u32| {
        count = count.wrapping_add(1);
        a == b
    });
    calls_ask(&groups);
    questions_count(&groups);
    for _ in groups {}
    count
}

/// The questions of any list of calls on binary groups: no more than a walk over all of them may ask.
pub fn walk_binary<'a>(xs: &'a [u32], ends: &[End], out: &mut [Option<&'a [u32]>]) -> usize
    requires { length out.old ≡ length ends.now }
    ensures most { result ≤ length xs.now * digits (length xs.now) }
    ensures answers { IsGrouped nat_eq xs.now
        → map (option_map (λ group. group.now)) out.new ≡ pops (split nat_eq xs.now) ends.now }
{
    let mut count = 0usize;
    let mut groups = BinaryGroupBy::new(xs, |first: &u32, other: &u32| {
        count = count.wrapping_add(1);
        first == other
    });
    questions_count(&groups);
    walk(&mut groups, ends, out);
    count
}

/// The first exponential group, and how many questions it costs: by its own length alone, and none where there is no
/// group.
pub fn first_exponential_group(xs: &[u32]) -> (Option<&[u32]>, usize)
    ensures { MatchOption result.0 (result.1 ≡ 0) (λ group. result.1 ≤ 2 * digits (length group.now) + 1) }
{
    let mut count = 0usize;
    let mut groups = ExponentialGroupBy::new(xs, |a: &u32, b: &u32| {
        count = count.wrapping_add(1);
        a == b
    });
    search_asks(&groups);
    let first = groups.next();
    (first, count)
}

/// The questions of a walk over linear groups by a `for`.
pub fn linear_questions_of_for(xs: &[u32]) -> usize
    ensures { result ≡ length xs.now - 1 }
{
    let mut count = 0usize;
    let groups = LinearGroupBy::new(xs, |a: &u32, b: &u32| {
        count = count.wrapping_add(1);
        a == b
    });
    calls_ask(&groups);
    linear_counts(&groups);
    for _group in groups {}
    count
}

/// The same through `map`: the longest group, and the questions.
pub fn longest_and_questions(xs: &[u32]) -> (usize, usize)
    ensures { result.1 ≡ length xs.now - 1 }
{
    let mut count = 0usize;
    let groups = LinearGroupBy::new(xs, |a: &u32, b: &u32| {
        count = count.wrapping_add(1);
        a == b
    });
    linear_counts(&groups);
    let lens = groups.map(|group| group.len());
    mapped_calls_ask(&lens);
    let mut longest = 0usize;
    for len in lens {
        longest = longest.max(len);
    }
    (longest, count)
}

/// How many questions the groups of a stream ask: one less than there are elements in all blocks, however these are
/// cut.
pub fn stream_questions(blocks: &[&[u32]]) -> usize
    ensures { length (flat_map (λ block. block.now) blocks.now) ≤ 2 ^ 64
        → result ≡ length (flat_map (λ block. block.now) blocks.now) - 1 }
{
    let mut stream = StreamGroups::new();
    let mut count = 0usize;
    for block in blocks {
        count = with_questions(&mut stream, block, count);
    }
    count
}

// The count with the questions of a block more.
fn with_questions(stream: &mut StreamGroups<u32>, block: &[u32], mut count: usize) -> usize
    ensures { (came : List ℕ) → kept_of stream.old ≡ last came → (length came ≤ 2 ^ 64 → count ≡ length came - 1)
        → (kept_of stream.new ≡ last (came ++ block.now))
        × (length (came ++ block.now) ≤ 2 ^ 64 → result ≡ length (came ++ block.now) - 1) }
{
    let parts = stream.parts_by(block, |a: &u32, b: &u32| {
        count = count.wrapping_add(1);
        a == b
    });
    parts_join(&parts);
    streams_count(&parts);
    for _ in parts {}
    count
}

/// How often the key function of a stream is called: twice on each element of all blocks.
pub fn stream_key_calls(blocks: &[&[u32]]) -> usize
    ensures { 2 * length (flat_map (λ block. block.now) blocks.now) < 2 ^ 64
        → result ≡ 2 * length (flat_map (λ block. block.now) blocks.now) }
{
    let mut stream = StreamGroups::new();
    let mut count = 0usize;
    for block in blocks {
        count = with_key_calls(&mut stream, block, count);
    }
    count
}

// The count with the calls for a block more.
fn with_key_calls(stream: &mut StreamGroups<u32>, block: &[u32], mut count: usize) -> usize
    ensures { (came : List ℕ) → (2 * length came < 2 ^ 64 → count ≡ 2 * length came)
        → 2 * length (came ++ block.now) < 2 ^ 64 → result ≡ 2 * length (came ++ block.now) }
{
    let parts = stream.parts_by_key(block, |x: &u32| {
        count = count.wrapping_add(1);
        *x / 10
    });
    streams_count_keys(&parts);
    for _ in parts {}
    count
}

/// How many comparisons a walk over a join makes: at most four for each element of both sides.
pub fn comparisons_of_join(left: &[u32], right: &[u32]) -> usize
    ensures { result ≤ 4 * (length left.now + length right.now) }
{
    let mut count = 0usize;
    let join = MergeJoinBy::new(left, right, |x: &u32, y: &u32| {
        count = count.wrapping_add(1);
        x.cmp(y)
    });
    merges_ask(&join);
    join_counts(&join);
    for _ in join {}
    count
}
