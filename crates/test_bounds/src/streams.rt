//! Groups of streams.
use slice_group_by::LinearGroup;
use slice_group_simd::{ByteClasses, Lanes};
use slice_group_stream::{Parts, StreamGroups};
use std::fmt::Debug;

pub fn by_equality<T: PartialEq + Copy>(block: &[T]) {
    let mut stream = StreamGroups::new();
    let _ = stream.parts(block).next();
}

pub fn of_numbers<T: Lanes + Copy>(block: &[T]) {
    let mut stream = StreamGroups::new();
    let _ = stream.number_parts(block).next();
}

pub fn of_classes<C: ByteClasses>(block: &[u8]) {
    let mut stream = StreamGroups::new();
    let _ = stream.class_parts::<C>(block).next();
}

pub fn by_predicate<T: Copy, P: FnMut(&T, &T) -> bool>(predicate: P, block: &[T])
    requires { P.IsAlwaysCallable predicate }
{
    let mut stream = StreamGroups::new();
    let _ = stream.parts_by(block, predicate).next();
}

pub fn by_key<T, F: FnMut(&T) -> K, K: PartialEq + Drop>(key: F, block: &[T])
    requires { F.IsAlwaysCallable key }
{
    let mut stream = StreamGroups::new();
    let _ = stream.parts_by_key(block, key).next();
}

fn is_copied<Q: Clone + Debug>(_value: &Q) {}

pub fn kept<K: Clone + Debug, I: Clone + Debug>(parts: &Parts<I>) -> StreamGroups<K> {
    let stream = StreamGroups::default();
    is_copied(&stream);
    is_copied(parts);
    stream
}

pub fn by_hand<T: PartialEq>(begins: bool, block: &[T]) {
    let _ = Parts::new(begins, LinearGroup::new(block)).next();
}

pub fn by_lent_closure(blocks: &[&[u8]]) -> usize {
    let mut stream = StreamGroups::new();
    let mut groups = 0usize;
    let mut same = |a: &u8, b: &u8| a == b;
    for block in blocks {
        for (begins, _) in stream.parts_by(block, &mut same) {
            if begins {
                groups = groups.saturating_add(1);
            }
        }
    }
    groups
}

pub fn by_handed_predicate<T: Copy, P: FnMut(&T, &T) -> bool>(
    mut predicate: P,
    blocks: &[&[T]],
) -> usize
    requires { (state : P) → P.IsAlwaysCallable state }
{
    let mut stream = StreamGroups::new();
    let mut groups = 0usize;
    for block in blocks {
        let mut parts = stream.parts_by(block, predicate);
        for (begins, _) in parts.by_ref() {
            if begins {
                groups = groups.saturating_add(1);
            }
        }
        predicate = parts.into_predicate();
    }
    groups
}

pub fn by_handed_key<T, F: FnMut(&T) -> K, K: PartialEq + Drop>(mut key: F, blocks: &[&[T]])
    requires { (state : F) → F.IsAlwaysCallable state }
{
    let mut stream = StreamGroups::new();
    for block in blocks {
        let mut parts = stream.parts_by_key(block, key);
        let _ = parts.next();
        key = parts.into_key();
    }
}

pub fn by_counting_closure(blocks: &[&[u8]]) -> (usize, usize) {
    let mut count = 0usize;
    let groups = by_handed_predicate(
        |a: &u8, b: &u8| {
            count = count.saturating_add(1);
            a == b
        },
        blocks,
    );
    (groups, count)
}
