//! What the methods are called on, a caller's own holder too, and how much an iterator takes.
ghost use Rattle.std.specs.Prelude.{◌≡◌};
ghost use Rattle.std.specs.Vec.{with_items};

use sgb_split::judge::EqualityJudge;
use slice_group_by::loans::{Ended, resolve_in};
use slice_group_by::{
    AsMutSlice, BinaryGroupByKeyMut, Elements, ExponentialGroupByKey, GroupBy, GroupByMut,
    LinearGroup, LinearGroupMut, LinearStrGroup, LinearStrGroupMut, StrGroupBy, StrGroupByMut,
};
use std::cell::Cell;
use std::convert::AsSlice;
use std::test::Fail;

// It counts how often it was asked for its elements.
#[derive(Drop)]
struct Row {
    elems: Vec<u32>,
    asked: Cell<u32>,
}

impl AsSlice<u32> for Row {
    ghost items = { λ row. row.elems.items };

    fn as_slice(&self) -> &[u32] {
        self.asked.set(self.asked.get().wrapping_add(1));
        self.elems.as_slice()
    }
}

impl Elements<u32> for Row {}

impl AsMutSlice<u32> for Row {
    ghost elements = { λ row. row.elems.items };

    ghost with_elements = { λ row xs. record row { elems = with_items row.elems xs } };

    fn as_mut_slice(&mut self) -> &mut [u32] {
        self.asked.set(self.asked.get().wrapping_add(1));
        self.elems.as_mut_slice()
    }
}

// Reads the groups, and writes the first element of each.
fn mark_groups(row: &mut Row) -> usize {
    let count = row.linear_group().count();
    for group in row.binary_group_mut() {
        group[0] = 7;
    }
    count
}

// Writes an element that is lent.
fn marked(part: &mut [u32]) -> Ended<'_, u32>
    ensures { result.name ≡ part.entry.ghost_name }
{
    if let Some(first) = part.first_mut() {
        *first = 8;
    }
    Ended::of(part)
}

fn mark_first(row: &mut Row) {
    resolve_in(row, |part| marked(part));
}

#[test]
fn an_own_holder_is_asked_once(rt: HostRuntime) -> Result<(), Fail> {
    let mut row = Row {
        elems: vec![in rt.alloc(); 1, 1, 2, 2]?,
        asked: Cell::new(0),
    };
    assert_eq!(rt; mark_groups(&mut row), 2);
    assert!(rt; row.elems.as_slice() == [7, 1, 7, 2].as_slice());
    assert_eq!(rt; row.asked.get(), 2);
    mark_first(&mut row);
    assert!(rt; row.elems.as_slice() == [8, 1, 7, 2].as_slice());
    assert_eq!(rt; row.asked.get(), 3);
    Ok(())
}

fn count_in_array() -> [usize; 3] {
    let mut array = [1, 1, 2];
    let counts = [
        array.linear_group().count(),
        array.binary_group_mut().count(),
    ];
    let slice: &mut [i32] = &mut array;
    [counts[0], counts[1], slice.exponential_group().count()]
}

fn mark_vector(vec: &mut Vec<i32>) -> usize {
    let count = vec.linear_group().count();
    for group in vec.exponential_group_mut() {
        group[0] = 7;
    }
    count
}

#[test]
fn elements_where_they_lie(rt: HostRuntime) -> Result<(), Fail> {
    assert_eq!(rt; count_in_array(), [2; 3]);
    let mut vec = vec![in rt.alloc(); 1, 1, 2]?;
    assert_eq!(rt; mark_vector(&mut vec), 2);
    assert!(rt; vec.as_slice() == [7, 1, 7].as_slice());
    Ok(())
}

fn count_in_vector(mut vec: Vec<u8>) -> usize {
    if std::str::from_utf8(vec.as_slice()).is_err() {
        return 0;
    }
    StrGroupByMut::linear_group_mut(&mut vec).count()
}

#[test]
fn texts_where_they_lie(rt: HostRuntime) -> Result<(), Fail> {
    let text = format!(in rt.alloc(); "ééa")?;
    assert!(rt; text.linear_group().next() == Some("éé"));
    assert_eq!(rt; count_in_vector(vec![in rt.alloc(); b'b', b'b', b'a']?), 2);
    Ok(())
}

// An iterator takes its input and its closure, and one for reading two places: the count of questions, the key's type and the tokens
// take no bytes.
const _: () = prove!(size_of::<EqualityJudge>() == 0);

const _: () = prove!(size_of::<LinearGroup<'static, u32>>() == size_of::<(&[u32], usize, usize)>());

const _: () = prove!(
    size_of::<ExponentialGroupByKey<'static, u32, (u64, u8), [u8; 9]>>()
        == size_of::<(&[u32], usize, usize, (u64, u8))>()
);

const _: () = prove!(size_of::<LinearGroupMut<'static, u32>>() == size_of::<&mut [u32]>());

const _: () = prove!(
    size_of::<BinaryGroupByKeyMut<'static, u32, (u64, u8), [u8; 9]>>()
        == size_of::<(&mut [u32], (u64, u8))>()
);

const _: () = prove!(size_of::<LinearStrGroup<'static>>() == size_of::<(&str, usize, usize)>());

const _: () = prove!(size_of::<LinearStrGroupMut<'static>>() == size_of::<&mut [u8]>());
