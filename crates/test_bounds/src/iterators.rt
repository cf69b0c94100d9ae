//! What the types are: iterators that stay at their end, queues, what may be shown and what may cross threads.
ghost use Rattle.std.specs.Prelude.{◌≡◌, length};

use slice_group_by::adapters::{DedupWithCount, Offsets, WithKeys, WithOffsets};
use slice_group_by::laws::{RemainderLen, SliceQueue, SliceQueueMut};
use slice_group_by::loans::{Ended, Loans};
use slice_group_by::*;
use slice_group_simd::{ByteClasses, Lanes, LinearClassGroup, LinearNumberGroup};
use slice_merge_join::{AsOfJoin, EitherOrBoth, MergeJoinBy};
use std::cmp::Ordering;
use std::fmt::Debug;
use std::iter::FusedIterator;

fn is_read<'a, T: 'a, Q: FusedIterator + SliceQueue<'a, T> + Offsets>(_groups: &Q) {}

fn is_written<'a, T: 'a, Q: FusedIterator + SliceQueueMut<'a, T> + RemainderLen>(_groups: &Q) {}

fn is_queue<Q: DoubleEndedIterator + FusedIterator + GroupQueue + RemainderLen>(_groups: &Q) {}

fn is_shown<W: Debug>(_value: &W) {}

fn crosses_threads<W: Send + Sync>(_value: &W) {}

pub fn of_elements<'a, T: PartialEq, N: Lanes>(
    equal: (&LinearGroup<'a, T>, &LinearGroupMut<'a, T>),
    numbers: &LinearNumberGroup<'a, N>,
) {
    is_read::<T, _>(equal.0);
    is_written::<T, _>(equal.1);
    is_read::<N, _>(numbers);
}

pub fn of_classes<'a, C: ByteClasses>(bytes: &'a [u8]) -> LinearClassGroup<'a, C> {
    let groups = LinearClassGroup::new(bytes);
    is_read::<u8, _>(&groups);
    groups
}

pub fn by_predicate<'a, T, P: FnMut(&T, &T) -> bool>(
    read: &BinaryGroupBy<'a, T, P>,
    written: &BinaryGroupByMut<'a, T, P>,
) {
    is_read::<T, _>(read);
    is_written::<T, _>(written);
}

pub fn by_key<'a, T, F: FnMut(&T) -> K, K: PartialEq + Drop>(
    read: &ExponentialGroupByKey<'a, T, F, K>,
    written: &ExponentialGroupByKeyMut<'a, T, F, K>,
) {
    is_read::<T, _>(read);
    is_written::<T, _>(written);
}

pub fn of_texts<P: FnMut(char, char) -> bool, F: FnMut(char) -> K, K: PartialEq + Drop>(
    by: (&LinearStrGroupBy<'_, P>, &LinearStrGroupByMut<'_, P>),
    by_key: (
        &LinearStrGroupByKey<'_, F, K>,
        &LinearStrGroupByKeyMut<'_, F, K>,
    ),
) {
    is_queue(by.0);
    is_queue(by.1);
    is_queue(by_key.0);
    is_queue(by_key.1);
}

pub fn groups_with_keys<Q>(groups: Q) -> WithKeys<Q> {
    groups.with_keys()
}

pub fn counted_groups<'a, T: 'a, Q: SliceQueue<'a, T>>(groups: Q) -> DedupWithCount<'a, T, Q> {
    dedup_with_count(groups)
}

pub fn groups_with_both<Q>(groups: Q) -> WithKeys<WithOffsets<Q>> {
    groups.with_offsets().with_keys()
}

pub fn calls<Q: GroupQueue>(queue: &mut Q, ends: &[End], out: &mut [Option<Q::Item>])
    requires can { Q.can_pop queue.old }
    requires len { length out.old ≡ length ends.now }
{
    walk(queue, ends, out);
}

fn gives<I: FusedIterator<Item = G>, G>(_join: &I) {}

// The pairs and parts live as long as the sides.
pub fn joins<'a, A, B, FA: Fn(&A) -> K, FB: Fn(&B) -> K, F: FnMut(&A, &B) -> Ordering, K>(
    by_key: &MergeJoin<'a, A, B, FA, FB, K>,
    by: &MergeJoinBy<'a, A, B, F>,
    as_of: &AsOfJoin<'a, A, B, F>,
    outer: &OuterJoin<'a, A, B, FA, FB, K>,
)
where
    K: Ord + Drop,
{
    gives::<_, (K, &'a [A], &'a [B])>(outer);
    gives::<_, (&'a [A], &'a [B])>(by_key);
    gives::<_, EitherOrBoth<&'a [A], &'a [B]>>(by);
    gives::<_, (&'a A, Option<&'a B>)>(as_of);
    let _ = as_of.len();
}

// What is given lives as long as the input, and not as the iterator.
pub fn given<'a, T: PartialEq>(
    mut groups: LinearGroup<'a, T>,
    written: LinearGroupMut<'a, T>,
    text: LinearStrGroup<'a>,
) -> (Option<&'a [T]>, &'a [T], Option<&'a mut [T]>, &'a str) {
    let first = groups.next();
    (first, groups.remainder(), written.last(), text.as_str())
}

// What looks at iterators asks nothing of a closure, and what gives them up no more than that it may be let go.

pub fn looks<T, P, F, K>(
    read: &BinaryGroupBy<'_, T, P>,
    written: &BinaryGroupByKeyMut<'_, T, F, K>,
    text: &LinearStrGroupBy<'_, P>,
    bytes: &LinearStrGroupByKeyMut<'_, F, K>,
) {
    let _ = read.remainder().len() == read.remainder_len() && read.is_empty() && read.offset() == 0;
    let _ = written.remainder().len() == written.remainder_len() && written.is_empty();
    let _ = text.as_str().len() == text.remainder_len() && text.is_empty() && text.offset() == 0;
    let _ = bytes.as_str().len() == bytes.remainder_len() && bytes.is_empty();
}

pub fn remainder<'a, T, F: Drop, K>(groups: LinearGroupByKeyMut<'a, T, F, K>) -> &'a mut [T] {
    groups.into_remainder()
}

pub fn parts<'a, T, F: Drop, K>(groups: LinearGroupByKeyMut<'a, T, F, K>) -> &'a mut [T] {
    groups.into_parts().0
}

pub fn cuts<'a, T: PartialEq>(slice: &'a [T]) -> (usize, Option<&'a [T]>) {
    let place = LinearGroup::new(slice).boundary(1);
    (place, LinearGroup::new(slice).shards(2).next())
}

// Groups of elements that live longer are groups of these.
pub fn shorter_lived<'a, 'b: 'a>(
    groups: LinearGroup<'a, &'static str>,
) -> LinearGroup<'a, &'b str> {
    groups
}

pub fn shown<T: Debug, P, F, K>(
    by: (&LinearGroupBy<'_, T, P>, &BinaryGroupByMut<'_, T, P>),
    by_key: (
        &ExponentialGroupByKey<'_, T, F, K>,
        &LinearGroupByKeyMut<'_, T, F, K>,
    ),
) {
    is_shown(by.0);
    is_shown(by.1);
    is_shown(by_key.0);
    is_shown(by_key.1);
}

pub fn shards_shown<T: Debug, J, W>(shards: &Shards<'_, T, J, W>) {
    is_shown(shards);
}

fn is_copied<Q: Clone + Debug>(_value: &Q) {}

// What wraps is copied and shown where what it wraps is.
pub fn wrapped<'a, T: 'a, Q: Clone + Debug, A: Debug, B: Debug, F: Clone>(
    offsets: &WithOffsets<Q>,
    keys: &WithKeys<Q>,
    counts: &DedupWithCount<'a, T, Q>,
    join: &MergeJoinBy<'a, A, B, F>,
    as_of: &AsOfJoin<'a, A, B, F>,
) {
    is_copied(offsets);
    is_copied(keys);
    is_copied(counts);
    is_copied(join);
    is_copied(as_of);
}

pub fn masks<N: Lanes + Debug, C: ByteClasses>(
    numbers: &LinearNumberGroup<'_, N>,
    classes: &LinearClassGroup<'_, C>,
) {
    is_copied(numbers);
    is_copied(classes);
}

// Where elements, closures and keys may cross threads.
pub fn threads<T: Send + Sync, F: Send + Sync, K: Send + Sync, N: Lanes + Send + Sync>(
    groups: (&LinearGroup<'_, T>, &ExponentialGroupByKeyMut<'_, T, F, K>),
    numbers: &LinearNumberGroup<'_, N>,
    texts: (&LinearStrGroupByKey<'_, F, K>, &LinearStrGroupMut<'_>),
    by_key: &MergeJoin<'_, T, T, F, F, K>,
    by: (&MergeJoinBy<'_, T, T, F>, &AsOfJoin<'_, T, T, F>),
) {
    crosses_threads(groups.0);
    crosses_threads(groups.1);
    crosses_threads(numbers);
    crosses_threads(texts.0);
    crosses_threads(texts.1);
    crosses_threads(by_key);
    crosses_threads(by.0);
    crosses_threads(by.1);
}

// (whatever is in the slice)
pub fn tokens<T>(ended: &Ended<'_, T>, loans: &Loans<T>) {
    crosses_threads(ended);
    crosses_threads(loans);
}
