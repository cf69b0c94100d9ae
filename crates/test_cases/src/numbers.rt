//! Groups of equal numbers by vectors.
use slice_group_by::{GroupBy, GroupByMut};
use slice_group_simd::{GroupByNumber, Lanes, LinearNumberGroup};
use std::array;

// The lengths of the groups at both ends in turn, the front first.
fn lens<T: Lanes, const N: usize>(slice: &[T]) -> [usize; N] {
    let mut groups = LinearNumberGroup::new(slice);
    let mut lens = [0; N];
    for (place, len) in lens.iter_mut().enumerate() {
        let group = if place % 2 == 0 {
            groups.next()
        } else {
            groups.next_back()
        };
        *len = group.map_or(0, |group| group.len());
    }
    lens
}

// Forty numbers, of which the last ten are others.
fn ends_of_types() -> [[usize; 3]; 6] {
    [
        lens(&ten_others(i8::MIN, i8::MAX)),
        lens(&ten_others(u16::MAX, 0)),
        lens(&ten_others(-1i32, i32::MAX)),
        lens(&ten_others(0u64, u64::MAX)),
        lens(&ten_others(0.5f32, 1.5)),
        lens(&ten_others(1.0f64, f64::NAN)),
    ]
}

fn ten_others<T: Copy>(first: T, other: T) -> [T; 40] {
    array::from_fn(|place| if place < 30 { first } else { other })
}

#[test]
fn ends_of_each_width(rt: HostRuntime) {
    let [i8s, u16s, i32s, u64s, f32s, not_numbers] = ends_of_types();
    for lens in [i8s, u16s, i32s, u64s, f32s] {
        assert_eq!(rt; lens, [30, 10, 0]);
    }
    assert_eq!(rt; not_numbers, [30, 1, 1]);
}

#[test]
fn zero_and_minus_zero(rt: HostRuntime) {
    let mut zeros = [0.0f64; 40];
    zeros[7] = -0.0;
    zeros[39] = -0.0;
    assert_eq!(rt; lens(&zeros), [40, 0]);
    assert_eq!(rt; lens(&[f32::NAN; 40]), [1, 1, 1]);
}

// Groups longer than a vector and shorter, from both ends.
#[test]
fn both_ends_mixed(rt: HostRuntime) {
    let mut numbers = [0u8; 200];
    numbers[..90].fill(1);
    numbers[91..95].fill(2);
    numbers[120..].fill(3);
    assert_eq!(rt; lens(&numbers), [90, 80, 1, 25, 4, 0]);
}

#[test]
fn methods(rt: HostRuntime) {
    let array = [1u8, 1, 2, 3, 3, 3];
    assert!(rt; array.linear_number_group().next_back() == Some([3, 3, 3].as_slice()));
}
