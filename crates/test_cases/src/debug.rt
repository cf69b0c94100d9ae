//! The text of each type that has one, and that a writer's error comes out of it.
use crate::calls::{equal, itself};
use slice_group_by::{
    BinaryGroupBy, BinaryGroupByKey, BinaryGroupByKeyMut, BinaryGroupByMut, End,
    ExponentialGroupBy, ExponentialGroupByKey, ExponentialGroupByKeyMut, ExponentialGroupByMut,
    GroupAdapters, LinearGroupBy, LinearGroupByKey, LinearGroupByKeyMut, LinearGroupByMut,
    dedup_with_count,
};
use slice_group_simd::{AsciiClasses, ClassCounter, LinearClassGroup, LinearNumberGroup};
use slice_group_stream::StreamGroups;
use slice_merge_join::EitherOrBoth::{Both, Left, Right};
use slice_merge_join::{AsOfJoin, EitherOrBoth, MergeJoinBy};
use std::alloc::{AllocError, Global};
use std::fmt::{self, Debug, Write};
use std::test::Fail;

fn is_written<D: Debug>(alloc: Global, value: &D, wanted: &str) -> Result<bool, AllocError> {
    let text = format!(in alloc; "{value:?}")?;
    Ok(text.as_str() == wanted)
}

fn read_by_predicate(alloc: Global, slice: &[i32], wanted: &str) -> Result<bool, AllocError> {
    let linear = LinearGroupBy::new(slice, equal);
    let binary = BinaryGroupBy::new(slice, equal);
    let exponential = ExponentialGroupBy::new(slice, equal);
    is_written(alloc, &(linear, binary, exponential), wanted)
}

fn read_by_key(alloc: Global, slice: &[i32], wanted: &str) -> Result<bool, AllocError> {
    let linear = LinearGroupByKey::new(slice, itself);
    let binary = BinaryGroupByKey::new(slice, itself);
    let exponential = ExponentialGroupByKey::new(slice, itself);
    is_written(alloc, &(linear, binary, exponential), wanted)
}

#[test]
fn texts_of_reading(rt: HostRuntime) -> Result<(), Fail> {
    let alloc = rt.alloc();
    let by = "(LinearGroupBy { slice: [1, 2] }, \
        BinaryGroupBy { remainder: [1, 2] }, \
        ExponentialGroupBy { remainder: [1, 2] })";
    assert!(rt; read_by_predicate(alloc, &[1, 2], by)?);
    let by = "(LinearGroupBy { slice: [] }, \
        BinaryGroupBy { remainder: [] }, \
        ExponentialGroupBy { remainder: [] })";
    assert!(rt; read_by_predicate(alloc, &[], by)?);
    let key = "(LinearGroupByKey { remainder: [1, 2] }, \
        BinaryGroupByKey { remainder: [1, 2] }, \
        ExponentialGroupByKey { remainder: [1, 2] })";
    assert!(rt; read_by_key(alloc, &[1, 2], key)?);
    let key = "(LinearGroupByKey { remainder: [] }, \
        BinaryGroupByKey { remainder: [] }, \
        ExponentialGroupByKey { remainder: [] })";
    assert!(rt; read_by_key(alloc, &[], key)?);
    let units = LinearGroupByKey::new(&[(), ()], |_: &()| 0);
    assert!(rt; is_written(alloc, &units, "LinearGroupByKey { remainder: [(), ()] }")?);
    Ok(())
}

fn written_by_predicate(
    alloc: Global,
    first: &mut [i32],
    second: &mut [i32],
    third: &mut [i32],
    wanted: &str,
) -> Result<bool, AllocError> {
    let linear = LinearGroupByMut::new(first, equal);
    let binary = BinaryGroupByMut::new(second, equal);
    let exponential = ExponentialGroupByMut::new(third, equal);
    is_written(alloc, &(linear, binary, exponential), wanted)
}

fn written_by_key(
    alloc: Global,
    first: &mut [i32],
    second: &mut [i32],
    third: &mut [i32],
    wanted: &str,
) -> Result<bool, AllocError> {
    let linear = LinearGroupByKeyMut::new(first, itself);
    let binary = BinaryGroupByKeyMut::new(second, itself);
    let exponential = ExponentialGroupByKeyMut::new(third, itself);
    is_written(alloc, &(linear, binary, exponential), wanted)
}

// Two of the exponential ones call the remainder `remaining`.
#[test]
fn texts_of_writing(rt: HostRuntime) -> Result<(), Fail> {
    let alloc = rt.alloc();
    let by = "(LinearGroupByMut { slice: [1, 2] }, \
        BinaryGroupByMut { remainder: [1, 2] }, \
        ExponentialGroupByMut { remaining: [1, 2] })";
    assert!(rt; written_by_predicate(alloc, &mut [1, 2], &mut [1, 2], &mut [1, 2], by)?);
    let by = "(LinearGroupByMut { slice: [] }, \
        BinaryGroupByMut { remainder: [] }, \
        ExponentialGroupByMut { remaining: [] })";
    assert!(rt; written_by_predicate(alloc, &mut [], &mut [], &mut [], by)?);
    let key = "(LinearGroupByKeyMut { remainder: [1, 2] }, \
        BinaryGroupByKeyMut { remainder: [1, 2] }, \
        ExponentialGroupByKeyMut { remaining: [1, 2] })";
    assert!(rt; written_by_key(alloc, &mut [1, 2], &mut [1, 2], &mut [1, 2], key)?);
    let key = "(LinearGroupByKeyMut { remainder: [] }, \
        BinaryGroupByKeyMut { remainder: [] }, \
        ExponentialGroupByKeyMut { remaining: [] })";
    assert!(rt; written_by_key(alloc, &mut [], &mut [], &mut [], key)?);
    Ok(())
}

#[test]
fn texts_of_values(rt: HostRuntime) -> Result<(), Fail> {
    let alloc = rt.alloc();
    assert!(rt; is_written(alloc, &[End::Front, End::Back], "[Front, Back]")?);
    let parts: [EitherOrBoth<u8, char>; 3] = [Left(1), Right('a'), Both(2, 'b')];
    assert!(rt; is_written(alloc, &parts, "[Left(1), Right('a'), Both(2, 'b')]")?);
    Ok(())
}

// Behind a call at each end.
fn read_behind_calls(alloc: Global, wanted: &str) -> Result<bool, AllocError> {
    let slice = [1, 2, 2, 3];
    let mut linear = LinearGroupBy::new(&slice, equal);
    let mut exponential = ExponentialGroupByKey::new(&slice, itself);
    let mut numbers = LinearNumberGroup::new(&slice);
    let _ = linear.next();
    let _ = exponential.next();
    let _ = numbers.next();
    let _ = linear.next_back();
    let _ = exponential.next_back();
    let _ = numbers.next_back();
    is_written(alloc, &(linear, exponential, numbers), wanted)
}

fn written_behind_calls(alloc: Global, wanted: &str) -> Result<bool, AllocError> {
    let (mut first, mut second) = ([1, 2, 2, 3], [1, 2, 2, 3]);
    let mut linear = LinearGroupByMut::new(&mut first, equal);
    let mut exponential = ExponentialGroupByKeyMut::new(&mut second, itself);
    let _ = linear.next();
    let _ = exponential.next();
    let _ = linear.next_back();
    let _ = exponential.next_back();
    is_written(alloc, &(linear, exponential), wanted)
}

#[test]
fn texts_behind_calls(rt: HostRuntime) -> Result<(), Fail> {
    let alloc = rt.alloc();
    let read = "(LinearGroupBy { slice: [2, 2] }, \
        ExponentialGroupByKey { remainder: [2, 2] }, \
        MaskGroups { remainder: [2, 2] })";
    assert!(rt; read_behind_calls(alloc, read)?);
    let written =
        "(LinearGroupByMut { slice: [2, 2] }, ExponentialGroupByKeyMut { remaining: [2, 2] })";
    assert!(rt; written_behind_calls(alloc, written)?);
    Ok(())
}

// How long the text of so many zeros is.
fn text_len(alloc: Global, zeros: usize) -> Result<usize, AllocError> {
    let slice = vec![in alloc; 0u8; zeros]?;
    let text = format!(in alloc; "{:?}", LinearGroupBy::new(&slice, equal_bytes))?;
    Ok(text.len())
}

fn equal_bytes(a: &u8, b: &u8) -> bool {
    a == b
}

// All elements are written: `0, ` for each but the last.
#[test]
fn texts_are_whole(rt: HostRuntime) -> Result<(), Fail> {
    let alloc = rt.alloc();
    let (long, short) = (text_len(alloc, 1000)?, text_len(alloc, 1)?);
    assert!(rt; long.checked_sub(short) == Some(3 * 999));
    Ok(())
}

fn shards_written(alloc: Global, taken: usize, wanted: &str) -> Result<bool, AllocError> {
    let mut shards = LinearGroupBy::new(&[1, 1, 2, 3], equal).shards(3);
    for _ in 0..taken {
        let _ = shards.next();
    }
    is_written(alloc, &shards, wanted)
}

// Clones behind a call.
fn adapters_written(alloc: Global, wanted: &str) -> Result<bool, AllocError> {
    let mut offsets = LinearNumberGroup::new(&[1, 1, 2]).with_offsets();
    let mut keys = LinearClassGroup::<AsciiClasses>::new(b"ab1").with_keys();
    let mut counts = dedup_with_count(LinearNumberGroup::new(&[1, 1, 2]));
    let _ = offsets.next();
    let _ = keys.next();
    let _ = counts.next();
    is_written(
        alloc,
        &(offsets.clone()?, keys.clone()?, counts.clone()?),
        wanted,
    )
}

fn joins_written(alloc: Global, wanted: &str) -> Result<bool, AllocError> {
    let mut join = MergeJoinBy::new(&[1, 3], &[2], |x: &u8, y: &u8| x.cmp(y));
    let mut as_of = AsOfJoin::new(&[2, 3], &[2, 4], |x: &u8, y: &u8| x.cmp(y));
    let _ = (join.next(), as_of.next());
    is_written(alloc, &(join.clone()?, as_of.clone()?), wanted)
}

fn stream_written(alloc: Global, wanted: &str) -> Result<bool, AllocError> {
    let mut stream = StreamGroups::default();
    let none = stream.clone()?;
    let mut parts = stream.number_parts(&[1, 1, 2]);
    let _ = parts.next();
    let (copy, kept) = (parts.clone()?, stream.clone()?);
    is_written(alloc, &(none, copy, kept), wanted)
}

#[test]
fn texts_of_adapters(rt: HostRuntime) -> Result<(), Fail> {
    let alloc = rt.alloc();
    assert!(rt; shards_written(alloc, 0, "Shards { remainder: [1, 1, 2, 3], count: 3 }")?);
    assert!(rt; shards_written(alloc, 1, "Shards { remainder: [2, 3], count: 2 }")?);
    let adapters = "(WithOffsets { groups: MaskGroups { remainder: [2] } }, \
        WithKeys { groups: MaskGroups { remainder: [49] } }, \
        DedupWithCount { groups: MaskGroups { remainder: [2] }, .. })";
    assert!(rt; adapters_written(alloc, adapters)?);
    let joins = "(MergeJoinBy { left: [3], right: [2], .. }, \
        AsOfJoin { left: [3], passed: Some(2), right: [4], .. })";
    assert!(rt; joins_written(alloc, joins)?);
    let stream = "(StreamGroups { kept: None }, \
        Parts { begins: true, groups: MaskGroups { remainder: [2] } }, \
        StreamGroups { kept: Some(2) })";
    assert!(rt; stream_written(alloc, stream)?);
    assert!(rt; ClassCounter::default().counts() == ClassCounter::new().counts());
    Ok(())
}

// It takes so many bytes, and fails at the next.
#[derive(Drop)]
struct Limited {
    left: usize,
}

impl Write for Limited {
    fn write_str(&mut self, text: &str) -> fmt::Result {
        if text.len() > self.left {
            return Err(fmt::Error);
        }
        self.left -= text.len();
        Ok(())
    }
}

fn fits(left: usize) -> bool {
    let groups = LinearGroupBy::new(&[1, 2], equal);
    write!(Limited { left }, "{groups:?}").is_ok()
}

// The text is "LinearGroupBy { slice: [1, 2] }".
#[test]
fn a_writers_error_comes_out(rt: HostRuntime) {
    for left in 0..40 {
        assert!(rt; fits(left) == (left >= 31));
    }
}
